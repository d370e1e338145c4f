// The command `terms H L`.
ghost use Rattle.std.specs.Prelude.{◌≡◌, ◌<◌, ◌≤◌, ◌+◌, length, IfOk, IfNone, IfSome, Some};
ghost use Rattle.braid_word.specs.declared.TheConstants.{MAX_INDEX};
ghost use Rattle.handle_reduce.specs.declared.TheConstants.{MAX_BOUND};
ghost use Rattle.ld_term.specs.Terms.{height, leaf_count};
ghost use Rattle.ld_term.specs.StrictTexts.{strict_text};
ghost use Rattle.term_graph.specs.TermLists.{term_at, braid_length};
ghost use Rattle.term_eval.specs.Braids.{braid};
ghost use Rattle.wb_command.specs.Refusals.{comes_answer};
ghost use Rattle.wb_compare.specs.Limits.{limits_of};
ghost use Rattle.wb_compare.specs.Terms.{braids_compared, compared_terms_answer, terms_compared, terms_meaning};

use crate::reduce::{Ended, reduce};
use braid_word::Word;
use handle_reduce::{MAX_BOUND, Reducer};
use std::alloc::{AllocError, Global};
use std::marker::Model;
use term_eval::EvalErr;
use term_graph::{NodeId, TermGraph, read_terms};
use trace_format::{Verdict, put_term_trace};
use wb_base::{Failed, Sink, Status};
use wb_command::{Args, Comes, Refusal, Task, Written, refuse};

/// `terms H L`: compares the braids of two terms by at most H handle reductions, over words of at most L
/// letters.
#[derive(Debug, Drop)]
pub struct CompareTerms {
    handles: u32,
    letters: u32,
}

impl Model for CompareTerms {
    ghost use Rattle.wb_compare.specs.Limits.{Limits, AreLimits};

    ghost Value = { Limits };

    ghost view = { λ s. record { handles = s.handles; letters = s.letters } };

    ghost invariant = { λ s. AreLimits (record { handles = s.handles; letters = s.letters }) };
}

impl CompareTerms {
    /// The command with the most handle reductions, and the most letters of a word.
    pub fn new(handles: u32, letters: u32) -> CompareTerms
        requires handles { handles ≤ MAX_BOUND }
        requires letters { letters ≤ MAX_BOUND }
        ensures { result ≡ record { handles = handles; letters = letters } }
    {
        CompareTerms { handles, letters }
    }

    /// The command with the two numbers that the words are, if they are two such.
    pub fn read(words: &mut Args<'_>) -> Option<CompareTerms>
        ensures { result ≡ limits_of words.old }
    {
        let handles = words.number(0, MAX_BOUND)?;
        let letters = words.number(0, MAX_BOUND)?;
        if words.is_at_end() {
            Some(CompareTerms { handles, letters })
        } else {
            None
        }
    }
}

/// The texts of two terms, and the reduction of the quotient of their braids, which has come to a verdict.
#[derive(Drop)]
pub struct ComparedTerms {
    left: Vec<u8>,
    right: Vec<u8>,
    verdict: Verdict,
    reducer: Reducer,
}

impl Written for ComparedTerms {
    ghost answer = { compared_terms_answer };

    fn status(&self) -> Status {
        Status::Done
    }

    fn put<K: Sink>(&self, sink: &mut K) -> Result<(), Failed> {
        put_term_trace(sink, &self.left, &self.right, &self.reducer, self.verdict)
    }
}

// The braid word of a term for which it isn't too long, or nothing where an index is too great.
fn braid_of(
    alloc: Global,
    graph: &TermGraph,
    node: NodeId,
    limit: u32,
) -> Result<Option<Word>, AllocError>
    requires number { node < length graph.now }
    requires limit { limit ≤ MAX_BOUND }
    requires short { braid_length (term_at graph.now node) ≤ limit }
    ensures none { IfOk result (λ found. IfNone found (MAX_INDEX < height (term_at graph.now node))) }
    ensures some { IfOk result (λ found.
        IfSome found (λ word. (word ≡ braid (term_at graph.now node))
        × (height (term_at graph.now node) ≤ MAX_INDEX))) }
{
    match term_eval::eval(alloc, graph, node, limit) {
        Ok(word) => Ok(Some(word)),
        Err(EvalErr::Index) => Ok(None),
        Err(EvalErr::TooLong { .. }) => unreachable!(),
        Err(EvalErr::Memory) => Err(AllocError),
    }
}

// Two terms, and the reduction of the quotient of their braids, which has come to this verdict.
fn compared(
    alloc: Global,
    graph: &TermGraph,
    nodes: (NodeId, NodeId),
    verdict: Verdict,
    reducer: Reducer,
) -> Result<ComparedTerms, AllocError>
    requires first { nodes.0 < length graph.now }
    requires second { nodes.1 < length graph.now }
    requires left_leaves { leaf_count (term_at graph.now nodes.0) ≤ MAX_BOUND + 1 }
    requires right_leaves { leaf_count (term_at graph.now nodes.1) ≤ MAX_BOUND + 1 }
    ensures left { IfOk result (λ told. told.left.items ≡ strict_text (term_at graph.now nodes.0)) }
    ensures right { IfOk result (λ told. told.right.items ≡ strict_text (term_at graph.now nodes.1)) }
    ensures verdict { IfOk result (λ told. told.verdict ≡ verdict) }
    ensures reducer { IfOk result (λ told. told.reducer ≡ reducer) }
{
    let (first, second) = nodes;
    Ok(ComparedTerms {
        left: graph.strict_text(alloc, first)?,
        right: graph.strict_text(alloc, second)?,
        verdict,
        reducer,
    })
}

// Compares the braids of two terms, whose words are these, within these limits.
fn compare_braids(
    alloc: Global,
    graph: &TermGraph,
    nodes: (NodeId, NodeId),
    words: (Word, Word),
    handles: u32,
    limit: u32,
) -> Result<Comes<ComparedTerms>, AllocError>
    requires first { nodes.0 < length graph.now }
    requires second { nodes.1 < length graph.now }
    requires left { words.0 ≡ braid (term_at graph.now nodes.0) }
    requires right { words.1 ≡ braid (term_at graph.now nodes.1) }
    requires left_short { braid_length (term_at graph.now nodes.0) ≤ limit }
    requires right_short { braid_length (term_at graph.now nodes.1) ≤ limit }
    requires handles { handles ≤ MAX_BOUND }
    requires limit { limit ≤ MAX_BOUND }
    ensures { IfOk result (λ outcome. braids_compared handles limit (term_at graph.now nodes.0)
        (term_at graph.now nodes.1) ≡ Some (comes_answer compared_terms_answer outcome)) }
{
    let (left, right) = words;
    match reduce(alloc, left.letters(), right.letters(), handles, limit)? {
        Ended::Decided { verdict, reducer } => {
            Ok(Comes::Done(compared(alloc, graph, nodes, verdict, reducer)?))
        }
        Ended::HandlesMet => Ok(Comes::Stopped(Refusal::HandlesMet(u64::from(handles)))),
        Ended::LengthMet => Ok(Comes::Stopped(Refusal::LengthMet(u64::from(limit)))),
    }
}

// Compares the braids of two terms, within these limits.
fn compare_nodes(
    alloc: Global,
    graph: &TermGraph,
    first: NodeId,
    second: NodeId,
    handles: u32,
    limit: u32,
) -> Result<Comes<ComparedTerms>, AllocError>
    requires first { first < length graph.now }
    requires second { second < length graph.now }
    requires handles { handles ≤ MAX_BOUND }
    requires limit { limit ≤ MAX_BOUND }
    ensures { IfOk result (λ outcome. terms_compared handles limit (term_at graph.now first)
        (term_at graph.now second) ≡ Some (comes_answer compared_terms_answer outcome)) }
{
    if graph.length(first).saturating_add(graph.length(second)) > u64::from(limit) {
        return Ok(Comes::Stopped(Refusal::LengthMet(u64::from(limit))));
    }
    let Some(left) = braid_of(alloc, graph, first, limit)? else {
        return Ok(Comes::Stopped(Refusal::IndexMet));
    };
    let Some(right) = braid_of(alloc, graph, second, limit)? else {
        return Ok(Comes::Stopped(Refusal::IndexMet));
    };
    compare_braids(alloc, graph, (first, second), (left, right), handles, limit)
}

impl Task for CompareTerms {
    type Done = ComparedTerms;

    ghost meaning = { terms_meaning };

    fn reads(&self) -> bool {
        true
    }

    fn law_sound(&self) {
        let _ = &self.handles;
    }

    fn perform(&self, alloc: Global, input: &[u8]) -> Result<Comes<ComparedTerms>, AllocError> {
        let (handles, letters) = (self.handles, self.letters);
        let file = match read_terms(alloc, input, 2) {
            Ok(file) => file,
            Err(error) => return refuse(error),
        };
        let Some(second) = file.second else {
            unreachable!();
        };
        compare_nodes(alloc, &file.graph, file.first, second, handles, letters)
    }
}
