ghost use Rattle.std.specs.Prelude.{List, IfSome, OnOk};
ghost use Rattle.ld_term.specs.Terms.{Term};
ghost use Rattle.term_expand.specs.Memos.{IsAnswer, IsMemo};

use indexmap::IndexMap;
use std::alloc::{AllocError, Global};
use term_graph::NodeId;

// A term that is made of terms of a graph, by their numbers.
#[derive(Clone, Copy, PartialEq, Eq, Hash)]
pub(crate) enum Work {
    // The first distributed over the second.
    Distribution(usize, usize),
    // The derived term.
    Derivation(usize),
}

// The numbers of the terms that were made.
#[derive(Drop)]
pub(crate) struct Memo {
    numbers: IndexMap<Work, NodeId>,
}

impl Memo {
    // Nothing is remembered.
    pub(crate) fn new(alloc: Global) -> Memo
        ensures { (terms : List Term) → IsMemo terms result }
    {
        Memo {
            numbers: IndexMap::new(alloc),
        }
    }

    // The number of a term, if it is remembered.
    pub(crate) fn find(&self, work: Work) -> Option<NodeId>
        ensures { (terms : List Term) → IsMemo terms self.now → IfSome result (IsAnswer terms work) }
    {
        self.numbers.get(&work).copied()
    }

    // Remembers the number of a term.
    pub(crate) fn remember(&mut self, work: Work, number: NodeId) -> Result<(), AllocError>
        ensures { (terms : List Term) → IsMemo terms self.old → IsAnswer terms work number
            → OnOk result (IsMemo terms self.new) }
    {
        let Ok(_) = self.numbers.insert(work, number) else {
            return Err(AllocError);
        };
        Ok(())
    }
}
