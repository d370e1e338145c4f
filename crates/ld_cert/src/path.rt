// The expansions by which a term becomes its derived term, line by line.
ghost use Rattle.std.specs.Prelude.{◌≡◌, ◌++◌, ◌∷◌, [], IfOk, OnOk};
ghost use Rattle.ld_term.specs.Terms.{distributed, derived};
ghost use Rattle.term_graph.specs.Nodes.{term_of};
ghost use Rattle.ld_cert.specs.Certificates.{spread, path};
ghost use Rattle.ld_cert.specs.CertificateText.{left_line};
ghost use Rattle.ld_cert.specs.Derivations.{lines_below};

use std::alloc::{AllocError, Global};
use std::rc::Rc;
use term_graph::Node;

// The place of a part: that of the product, and then the part's side.
fn part_place(alloc: Global, place: &[u8], side: u8) -> Result<Vec<u8>, AllocError>
    ensures { IfOk result (λ part. part.items ≡ place.now ++ side ∷ []) }
{
    let mut part = Vec::new(alloc);
    part.extend_from_slice(place)?;
    part.push(side)?;
    Ok(part)
}

// Adds the line of the expansion at a place.
fn push_line(text: &mut Vec<u8>, place: &[u8]) -> Result<(), AllocError>
    ensures { OnOk result (text.new.items ≡ text.old.items ++ left_line place.now) }
{
    text.extend_from_slice(b"l .")?;
    text.extend_from_slice(place)?;
    text.push(b'\n')?;
    Ok(())
}

// Adds the lines by which the product of some term and this one, at a place, becomes the one distributed over
// the other.
fn push_spread(
    alloc: Global,
    text: &mut Vec<u8>,
    place: &[u8],
    node: &Node,
) -> Result<(), AllocError>
    ensures { OnOk result
        (text.new.items ≡ text.old.items ++ lines_below place.now (spread (term_of node.now))) }
{
    match node {
        Node::X => Ok(()),
        Node::Product(left, right) => {
            push_line(text, place)?;
            let first = part_place(alloc, place, b'0')?;
            push_spread(alloc, text, &first, left)?;
            let second = part_place(alloc, place, b'1')?;
            push_spread(alloc, text, &second, right)?;
            Ok(())
        }
    }
}

// The first term distributed over the second.
fn distribute(alloc: Global, a: &Rc<Node>, b: &Rc<Node>) -> Result<Rc<Node>, AllocError>
    ensures { IfOk result
        (λ tree. term_of tree.value ≡ distributed (term_of a.now.value) (term_of b.now.value)) }
{
    match &**b {
        Node::X => Ok(Rc::new(alloc, Node::Product(a.clone()?, b.clone()?))?),
        Node::Product(left, right) => {
            let left = distribute(alloc, a, left)?;
            let right = distribute(alloc, a, right)?;
            Ok(Rc::new(alloc, Node::Product(left, right))?)
        }
    }
}

/// Adds the lines by which a term at a place becomes its derived term, and answers that.
pub(crate) fn push_path(
    alloc: Global,
    text: &mut Vec<u8>,
    place: &[u8],
    node: &Rc<Node>,
) -> Result<Rc<Node>, AllocError>
    ensures tree { IfOk result (λ tree. term_of tree.value ≡ derived (term_of node.now.value)) }
    ensures text { OnOk result
        (text.new.items ≡ text.old.items ++ lines_below place.now (path (term_of node.now.value))) }
{
    match &**node {
        Node::X => Ok(node.clone()?),
        Node::Product(left, right) => {
            let first = part_place(alloc, place, b'0')?;
            let left = push_path(alloc, text, &first, left)?;
            let second = part_place(alloc, place, b'1')?;
            let right = push_path(alloc, text, &second, right)?;
            push_spread(alloc, text, place, &right)?;
            Ok(distribute(alloc, &left, &right)?)
        }
    }
}
