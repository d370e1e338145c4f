// The command `expand A`.
ghost use Rattle.std.specs.Prelude.{◌≡◌, ◌<◌, length, IfErr, IfOk};
ghost use Rattle.term_graph.specs.TermLists.{term_at};
ghost use Rattle.term_expand.specs.Expansions.{IsAddress};
ghost use Rattle.term_graph.specs.Asks.{answered};
ghost use Rattle.wb_command.specs.Refusals.{comes_answer, refusal_answer};
ghost use Rattle.wb_terms.specs.Listed.{listed, listing_answer};
ghost use Rattle.wb_terms.specs.Expand.{address_of, expand_meaning, expand_of, expanded_at};

use crate::listed::ListedTerm;
use std::alloc::{AllocError, Global};
use std::marker::Model;
use term_expand::{ExpandErr, is_address};
use term_graph::{NodeId, TermGraph, read_terms};
use wb_base::count_lines;
use wb_command::{Args, Comes, Fault, Refusal, Task, refuse};

/// `expand A`: gives the listing of a term whose part at the address A is expanded.
#[derive(Debug, Drop)]
pub struct Expand<'a> {
    address: &'a [u8],
}

impl<'a> Model for Expand<'a> {
    ghost use Rattle.std.specs.Prelude.{List, ℕ};
    ghost use Rattle.term_expand.specs.Expansions.{IsAddress};

    ghost Value = { List ℕ };

    ghost view = { λ s. s.address.now };

    ghost invariant = { λ s. IsAddress s.address.now };
}

impl<'a> Expand<'a> {
    /// The command with this address: its sides from the whole term on, `0` for the left part and `1` for
    /// the right one.
    pub fn new(address: &'a [u8]) -> Expand<'a>
        requires { IsAddress address.now }
        ensures { result ≡ address.now }
    {
        Expand { address }
    }

    // The command with the address that a command word is.
    fn at(word: &'a [u8]) -> Option<Expand<'a>>
        ensures { result ≡ address_of word.now }
    {
        let (dot, sides) = word.split_first()?;
        if *dot != b'.' {
            return None;
        }
        if !is_address(sides) {
            return None;
        }
        Some(Expand { address: sides })
    }

    /// The command with the address that the words are, if they are one.
    pub fn read(words: &mut Args<'a>) -> Option<Expand<'a>>
        ensures { result ≡ expand_of words.old }
    {
        let word = words.word()?;
        let command = Expand::at(word)?;
        if words.is_at_end() {
            Some(command)
        } else {
            None
        }
    }
}

// The node of a term that is expanded at an address, or a refusal. The line is for a fault of the address.
fn expand_node(
    alloc: Global,
    graph: &mut TermGraph,
    node: NodeId,
    address: &[u8],
    line: u64,
) -> Result<Result<NodeId, Refusal>, AllocError>
    requires number { node < length graph.old }
    requires address { IsAddress address.now }
    ensures number { IfOk result (λ expanded. IfOk expanded (λ n. n < length graph.new)) }
    ensures listed { IfOk result (λ expanded. IfOk expanded (λ n.
        expanded_at line address.now graph.old (term_at graph.old node)
        ≡ listed (answered graph.new) (term_at graph.new n))) }
    ensures refused { IfOk result (λ expanded. IfErr expanded (λ refusal.
        expanded_at line address.now graph.old (term_at graph.old node) ≡ refusal_answer refusal)) }
{
    match term_expand::expand(alloc, graph, node, address) {
        Ok(number) => Ok(Ok(number)),
        Err(ExpandErr::NoPlace) => Ok(Err(Refusal::BadInput(Fault::Address(line)))),
        Err(ExpandErr::NotExpandable) => Ok(Err(Refusal::BadInput(Fault::Expand(line)))),
        Err(ExpandErr::TooDeep) => Ok(Err(Refusal::HeightMet)),
        Err(ExpandErr::Full) => Ok(Err(Refusal::NodesMet)),
        Err(ExpandErr::Memory) => Err(AllocError),
    }
}

// The listing of a term that is expanded at an address. The line is for a fault of the address.
fn expand_term(
    alloc: Global,
    mut graph: TermGraph,
    node: NodeId,
    address: &[u8],
    line: u64,
) -> Result<Comes<ListedTerm>, AllocError>
    requires number { node < length graph }
    requires address { IsAddress address.now }
    ensures { IfOk result (λ outcome. expanded_at line address.now graph (term_at graph node)
        ≡ comes_answer listing_answer outcome) }
{
    match expand_node(alloc, &mut graph, node, address, line)? {
        Ok(number) => Ok(Comes::Done(ListedTerm::make(alloc, graph, number)?)),
        Err(refusal) => Ok(Comes::Stopped(refusal)),
    }
}

impl<'a> Task for Expand<'a> {
    type Done = ListedTerm;

    ghost meaning = { expand_meaning };

    fn reads(&self) -> bool {
        true
    }

    fn law_sound(&self) {}

    fn perform(&self, alloc: Global, input: &[u8]) -> Result<Comes<ListedTerm>, AllocError> {
        let address = self.address;
        match read_terms(alloc, input, 1) {
            Ok(file) => expand_term(
                alloc,
                file.graph,
                file.first,
                address,
                count_lines(input) as u64,
            ),
            Err(error) => refuse(error),
        }
    }
}
