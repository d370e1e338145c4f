// The certificate that a term is equivalent to its derived term.
ghost use Rattle.std.specs.Prelude.{◌≡◌, ◌++◌, ◌<◌, ◌≤◌, length, IfOk, IfErr, OnOk};
ghost use Rattle.ld_term.specs.Terms.{leaf_count, derived};
ghost use Rattle.ld_term.specs.StrictTexts.{strict_text};
ghost use Rattle.term_graph.specs.TermLists.{term_at};
ghost use Rattle.term_graph.specs.Nodes.{term_of};
ghost use Rattle.ld_cert.specs.Certificates.{path_certificate};
ghost use Rattle.ld_cert.specs.CertificateText.{certificate_text};
ghost use Rattle.ld_cert.specs.Accepted.{IsAccepted};
ghost use Rattle.ld_cert.specs.Derivations.{IsCertRefusal};
ghost use Rattle.ld_cert.specs.declared.TheConstants.{MAX_DERIVED_LEAVES};
ghost use Rattle.ld_cert.specs.declared.derive.CertErr.TheVariants.{Memory};

use crate::MAX_DERIVED_LEAVES;
use crate::leaves::derived_leaves;
use crate::path::push_path;
use std::alloc::{AllocError, Global};
use std::rc::Rc;
use term_graph::{Node, NodeId, TermGraph};
use thiserror::Error;

/// Why no certificate of a term and its derived term is written.
#[derive(Clone, Copy, Debug, PartialEq, Eq, Error)]
pub enum CertErr {
    /// The derived term has more than 300 leaves.
    #[error("a derived term of {leaves} leaves")]
    TooLarge {
        /// How many leaves it has, or the greatest number of 64 bits where they are more.
        leaves: u64,
    },
    /// Memory ran out.
    #[error("out of memory")]
    Memory,
}

impl From<AllocError> for CertErr {
    ghost from_gives = { λ _ e. e ≡ Memory };

    fn from(_error: AllocError) -> CertErr {
        CertErr::Memory
    }
}

// Adds the strict text of a term.
fn push_term(text: &mut Vec<u8>, node: &Node) -> Result<(), AllocError>
    ensures { OnOk result (text.new.items ≡ text.old.items ++ strict_text (term_of node.now)) }
{
    match node {
        Node::X => Ok(text.push(b'x')?),
        Node::Product(left, right) => {
            text.push(b'(')?;
            push_term(text, left)?;
            text.push(b'*')?;
            push_term(text, right)?;
            Ok(text.push(b')')?)
        }
    }
}

// The text of the certificate of a term and its derived term.
fn path_text(alloc: Global, node: &Rc<Node>) -> Result<Vec<u8>, AllocError>
    ensures { IfOk result
        (λ text. text.items ≡ certificate_text (path_certificate (term_of node.now.value))) }
{
    let mut lines = Vec::new(alloc);
    let derived = push_path(alloc, &mut lines, b"", node)?;
    let mut text = Vec::new(alloc);
    text.extend_from_slice(b"ld-certificate 1\nleft ")?;
    push_term(&mut text, node)?;
    text.extend_from_slice(b"\nright ")?;
    push_term(&mut text, &derived)?;
    text.extend_from_slice(b"\nyes\n")?;
    text.extend_from_slice(&lines)?;
    text.extend_from_slice(b"end\n")?;
    Ok(text)
}

/// The text of the certificate that a term is equivalent to its derived term, which a check accepts.
///
/// It has the expansions of the term by which it becomes the derived term, and none of that. It is refused
/// where the derived term has more than 300 leaves, which are counted before anything is made.
/// After P. Dehornoy, Braids and Self-Distributivity, 2000.
pub fn derive_certificate(
    alloc: Global,
    graph: &TermGraph,
    node: NodeId,
) -> Result<Vec<u8>, CertErr>
    requires { node < length graph.now }
    ensures text { IfOk result
        (λ text. text.items ≡ certificate_text (path_certificate (term_at graph.now node))) }
    ensures accepted { IfOk result
        (λ text. IsAccepted text.items (path_certificate (term_at graph.now node))) }

    // It is written where the derived term is small, and refused where it isn't, unless memory runs out.
    ensures small { OnOk result (leaf_count (derived (term_at graph.now node)) ≤ MAX_DERIVED_LEAVES) }
    ensures refused { IfErr result (IsCertRefusal (term_at graph.now node)) }
{
    let leaves = derived_leaves(alloc, graph, node)?;
    if leaves > MAX_DERIVED_LEAVES {
        return Err(CertErr::TooLarge { leaves });
    }
    Ok(path_text(alloc, graph.shared(node))?)
}
