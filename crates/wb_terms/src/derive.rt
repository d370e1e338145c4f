// The command `derive`.
ghost use Rattle.std.specs.Prelude.{◌≡◌, ◌<◌, length, IfOk};
ghost use Rattle.term_graph.specs.TermLists.{term_at};
ghost use Rattle.wb_command.specs.Refusals.{comes_answer};
ghost use Rattle.wb_terms.specs.Listed.{listing_answer};
ghost use Rattle.wb_terms.specs.Derive.{derive_meaning, derived_in};

use crate::listed::ListedTerm;
use std::alloc::{AllocError, Global};
use term_graph::{GraphErr, NodeId, TermGraph, read_terms};
use wb_command::{Comes, Refusal, Task, refuse};

/// `derive`: gives the listing of the derived term of a term.
#[derive(Clone, Copy, Debug, PartialEq, Eq)]
pub struct Derive;

// The listing of the derived term of a term.
fn derive_term(
    alloc: Global,
    mut graph: TermGraph,
    node: NodeId,
) -> Result<Comes<ListedTerm>, AllocError>
    requires { node < length graph }
    ensures { IfOk result (λ outcome. derived_in graph (term_at graph node)
        ≡ comes_answer listing_answer outcome) }
{
    match term_expand::derive(alloc, &mut graph, node) {
        Ok(number) => Ok(Comes::Done(ListedTerm::make(alloc, graph, number)?)),
        Err(GraphErr::TooDeep) => Ok(Comes::Stopped(Refusal::HeightMet)),
        Err(GraphErr::Full) => Ok(Comes::Stopped(Refusal::NodesMet)),
        Err(GraphErr::Memory) => Err(AllocError),
    }
}

impl Task for Derive {
    type Done = ListedTerm;

    ghost meaning = { λ command. derive_meaning };

    fn reads(&self) -> bool {
        true
    }

    fn law_sound(&self) {}

    fn perform(&self, alloc: Global, input: &[u8]) -> Result<Comes<ListedTerm>, AllocError> {
        match read_terms(alloc, input, 1) {
            Ok(file) => derive_term(alloc, file.graph, file.first),
            Err(error) => refuse(error),
        }
    }
}
