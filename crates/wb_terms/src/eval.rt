// The command `eval L`.
ghost use Rattle.std.specs.Prelude.{◌≡◌, ◌<◌, ◌≤◌, length, IfOk};
ghost use Rattle.wb_base.specs.Streams.{HasCause, Puts};
ghost use Rattle.handle_reduce.specs.declared.TheConstants.{MAX_BOUND};
ghost use Rattle.term_graph.specs.TermLists.{term_at};
ghost use Rattle.wb_command.specs.Refusals.{comes_answer};
ghost use Rattle.wb_terms.specs.Eval.{word_answer, evaluated, eval_meaning, eval_of};

use braid_word::{Letter, Word, put_word};
use handle_reduce::MAX_BOUND;
use std::alloc::{AllocError, Global};
use std::marker::Model;
use term_eval::EvalErr;
use term_graph::{NodeId, TermGraph, read_terms};
use wb_base::{Failed, Sink, Status, give_all};
use wb_command::{Args, Comes, Refusal, Task, Written, refuse};

/// `eval L`: gives the braid word of a term, which may have at most L letters.
#[derive(Debug, Drop)]
pub struct Eval {
    limit: u32,
}

impl Model for Eval {
    ghost use Rattle.std.specs.Prelude.{ℕ, ◌≤◌};
    ghost use Rattle.handle_reduce.specs.declared.TheConstants.{MAX_BOUND};

    ghost Value = { ℕ };

    ghost view = { λ s. s.limit };

    ghost invariant = { λ s. s.limit ≤ MAX_BOUND };
}

impl Eval {
    /// The command with this limit, in letters.
    pub fn new(limit: u32) -> Eval
        requires { limit ≤ MAX_BOUND }
        ensures { result ≡ limit }
    {
        Eval { limit }
    }

    /// The command with the number that the words are, if they are one.
    pub fn read(words: &mut Args<'_>) -> Option<Eval>
        ensures { result ≡ eval_of words.old }
    {
        let limit = words.number(0, MAX_BOUND)?;
        if words.is_at_end() {
            Some(Eval { limit })
        } else {
            None
        }
    }
}

/// The braid word of a term.
#[derive(Drop)]
pub struct BraidWord {
    word: Word,
}

impl Model for BraidWord {
    ghost use Rattle.std.specs.Prelude.{List};
    ghost use Rattle.braid_word.specs.Words.{Letter};

    ghost Value = { List Letter };

    ghost view = { λ s. s.word };
}

// Gives the line of a braid word.
fn put_line_of<K: Sink>(sink: &mut K, word: &[Letter]) -> Result<(), Failed>
    ensures took { Puts (K.taken sink.old) (K.taken sink.new) result (word_answer word.now).text }
    ensures cause { HasCause (K.faults sink.old) (K.faults sink.new) result }
{
    put_word(sink, word)?;
    give_all(sink, b"\n")
}

impl Written for BraidWord {
    ghost answer = { word_answer };

    fn status(&self) -> Status {
        Status::Done
    }

    fn put<K: Sink>(&self, sink: &mut K) -> Result<(), Failed> {
        put_line_of(sink, self.word.letters())
    }
}

// The braid word of a term, over words of at most this many letters.
fn eval_term(
    alloc: Global,
    graph: &TermGraph,
    node: NodeId,
    limit: u32,
) -> Result<Comes<BraidWord>, AllocError>
    requires number { node < length graph.now }
    requires limit { limit ≤ MAX_BOUND }
    ensures { IfOk result (λ outcome. evaluated limit (term_at graph.now node)
        ≡ comes_answer word_answer outcome) }
{
    match term_eval::eval(alloc, graph, node, limit) {
        Ok(word) => Ok(Comes::Done(BraidWord { word })),
        Err(EvalErr::TooLong { length }) => Ok(Comes::Stopped(Refusal::LengthNeeded {
            limit: u64::from(limit),
            count: length,
        })),
        Err(EvalErr::Index) => Ok(Comes::Stopped(Refusal::IndexMet)),
        Err(EvalErr::Memory) => Err(AllocError),
    }
}

impl Task for Eval {
    type Done = BraidWord;

    ghost meaning = { eval_meaning };

    fn reads(&self) -> bool {
        true
    }

    fn law_sound(&self) {}

    fn perform(&self, alloc: Global, input: &[u8]) -> Result<Comes<BraidWord>, AllocError> {
        match read_terms(alloc, input, 1) {
            Ok(file) => eval_term(alloc, &file.graph, file.first, self.limit),
            Err(error) => refuse(error),
        }
    }
}
