ghost use Rattle.std.specs.Prelude.{◌≡◌, ◌<◌, IfOk};
ghost use Rattle.ld_term.specs.Terms.{variable, multiply};
ghost use Rattle.ld_term.specs.declared.TheConstants.{MAX_HEIGHT};
ghost use Rattle.term_graph.specs.Nodes.{term_of, IsEntry};

use std::alloc::{AllocError, Global};
use std::marker::Model;
use std::rc::Rc;

/// The number of a term in a graph, counted from 0; number 0 is the variable.
#[derive(Clone, Copy, Debug, PartialEq, Eq)]
pub struct NodeId(pub(crate) u32);

impl Model for NodeId {
    ghost use Rattle.std.specs.Prelude.{ℕ};

    ghost Value = { ℕ };

    ghost view = { λ s. s.0 };

    ghost inverse = { λ n. record { 0 = n } };
}

impl NodeId {
    /// The number, as a place in a list of the graph's terms.
    pub fn index(self) -> usize
        ensures { result ≡ self }
    {
        self.0 as usize
    }
}

/// A term whose parts are shared with each term that has them.
#[derive(Debug, Drop)]
pub enum Node {
    /// The variable.
    X,
    /// A product.
    Product(Rc<Node>, Rc<Node>),
}

// A term of a graph, and its numbers.
#[derive(Debug, Drop)]
pub(crate) struct Entry {
    pub(crate) tree: Rc<Node>,
    pub(crate) height: u32,
    // At most the greatest number that fits, as the next one.
    pub(crate) leaves: u64,
    pub(crate) length: u64,
}

impl Entry {
    // The variable.
    pub(crate) fn variable(alloc: Global) -> Result<Entry, AllocError>
        ensures term { IfOk result (λ e. term_of e.tree.value ≡ variable) }
        ensures entry { IfOk result IsEntry }
    {
        Ok(Entry {
            tree: Rc::new(alloc, Node::X)?,
            height: 0,
            leaves: 1,
            length: 0,
        })
    }

    // The product of two terms, which isn't too high.
    pub(crate) fn product(alloc: Global, left: &Entry, right: &Entry) -> Result<Entry, AllocError>
        requires left { IsEntry left.now }
        requires right { IsEntry right.now }
        requires left_low { left.now.height < MAX_HEIGHT }
        requires right_low { right.now.height < MAX_HEIGHT }
        ensures term { IfOk result
            (λ e. term_of e.tree.value
            ≡ multiply (term_of left.now.tree.value) (term_of right.now.tree.value)) }
        ensures entry { IfOk result IsEntry }
    {
        let tree = Node::Product(left.tree.clone()?, right.tree.clone()?);
        let double = left.length.saturating_mul(2);
        Ok(Entry {
            tree: Rc::new(alloc, tree)?,
            height: left.height.max(right.height) + 1,
            leaves: left.leaves.saturating_add(right.leaves),
            length: double.saturating_add(right.length).saturating_add(1),
        })
    }
}
