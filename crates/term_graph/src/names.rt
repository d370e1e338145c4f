ghost use Rattle.std.specs.Prelude.{◌≡◌, ◌↔◌, ◌++◌, ◌∷◌, [], is_some, true, IsErrOf, OnOk, OnErr};
ghost use Rattle.term_graph.specs.NameLists.{number_of};

use crate::error::NameErr;
use crate::node::NodeId;
use indexmap::IndexMap;
use std::alloc::Global;
use std::marker::Model;
use wb_base::Name;

/// Names and the numbers of the terms that they stand for, in order of definition.
#[derive(Drop)]
pub struct Names {
    numbers: IndexMap<Name, NodeId>,
}

impl Model for Names {
    ghost use Rattle.std.specs.Prelude.{ℕ, List};

    ghost Value = { List (List ℕ × ℕ) };

    ghost view = { λ s. s.numbers.entries };
}

impl Names {
    /// No names. It takes no memory.
    pub fn new(alloc: Global) -> Names
        ensures { result ≡ [] }
    {
        Names {
            numbers: IndexMap::new(alloc),
        }
    }

    /// Lets a name stand for a term of this number, unless the name is there.
    pub fn define(&mut self, name: Name, node: NodeId) -> Result<(), NameErr>
        ensures added { OnOk result (self.new ≡ self.old ++ (name, node) ∷ []) }
        ensures twice { IsErrOf result NameErr.Twice ↔ (is_some (number_of name self.old) ≡ true) }
        ensures unchanged { OnErr result (self.new ≡ self.old) }
    {
        if self.numbers.contains_key(&name) {
            return Err(NameErr::Twice);
        }
        let Ok(_) = self.numbers.insert(name, node) else {
            return Err(NameErr::Memory);
        };
        Ok(())
    }

    /// The number of the term that a name stands for, if it is there. It takes no memory.
    pub fn find(&self, name: &Name) -> Option<NodeId>
        ensures { result ≡ number_of name.now self.now }
    {
        self.numbers.get(name).copied()
    }
}
