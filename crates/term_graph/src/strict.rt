ghost use Rattle.std.specs.Prelude.{◌≡◌, ◌++◌, ◌<◌, ◌≤◌, length, IfOk, OnOk};
ghost use Rattle.ld_term.specs.Terms.{leaf_count};
ghost use Rattle.term_graph.specs.TermLists.{term_at};
ghost use Rattle.ld_term.specs.StrictTexts.{strict_text};
ghost use Rattle.term_graph.specs.Nodes.{term_of};

use crate::graph::TermGraph;
use crate::node::{Node, NodeId};
use std::alloc::{AllocError, Global};

// Adds the strict text of a term.
fn push_text(text: &mut Vec<u8>, node: &Node) -> Result<(), AllocError>
    ensures { OnOk result (text.new.items ≡ text.old.items ++ strict_text (term_of node.now)) }
{
    match node {
        Node::X => Ok(text.push(b'x')?),
        Node::Product(left, right) => {
            text.push(b'(')?;
            push_text(text, left)?;
            text.push(b'*')?;
            push_text(text, right)?;
            Ok(text.push(b')')?)
        }
    }
}

impl TermGraph {
    /// The term with brackets round each product, and no space or LF.
    pub fn strict_text(&self, alloc: Global, a: NodeId) -> Result<Vec<u8>, AllocError>
        requires number { a < length self.now }
        requires leaves { leaf_count (term_at self.now a) ≤ 100001 }
        ensures { IfOk result (λ text. text.items ≡ strict_text (term_at self.now a)) }
    {
        let mut text = Vec::new(alloc);
        push_text(&mut text, self.shared(a))?;
        Ok(text)
    }
}
