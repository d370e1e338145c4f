// Refusals, and what a command comes to.
ghost use Rattle.std.specs.Prelude.{◌≡◌};
ghost use Rattle.wb_base.specs.Status.{Answer};
ghost use Rattle.wb_base.specs.Streams.{HasCause, Puts};
ghost use Rattle.wb_command.specs.Answers.{IsEnding};
ghost use Rattle.wb_command.specs.Refusals.{comes_answer, length_needed, refusal_answer, refused_line};

use crate::MAX_INPUT;
use crate::fault::Fault;
use braid_word::MAX_INDEX;
use ld_term::MAX_HEIGHT;
use term_graph::MAX_NODES;
use wb_base::{Failed, Sink, Status, give_all, put_line, put_numbered, put_numbered_line};

/// What a command has come to, before it is written: a status, and a text.
pub trait Written {
    /// The answer that it is.
    ghost answer: { Self → Answer };

    /// The status with which the program ends when the text was written.
    fn status(&self) -> Status
        ensures status { result ≡ (answer self.now).status }
        ensures ending { IsEnding result };

    /// Gives the text.
    fn put<K: Sink>(&self, sink: &mut K) -> Result<(), Failed>
        ensures took { Puts (K.taken sink.old) (K.taken sink.new) result (answer self.now).text }
        ensures cause { HasCause (K.faults sink.old) (K.faults sink.new) result };
}

/// A refusal that several commands share.
#[derive(Clone, Copy, Debug, PartialEq, Eq)]
pub enum Refusal {
    /// The input isn't of the command's form, or its term has nothing to expand at the address.
    BadInput(Fault),
    /// The input has too many bytes.
    InputMet,
    /// As many handles were reduced as may be.
    HandlesMet(u64),
    /// As many corners were turned as may be.
    StepsMet(u64),
    /// A word has more letters than it may.
    LengthMet(u64),
    /// A word of the input has more letters than the command works on.
    LettersMet(u64),
    /// An image has more generators than it may.
    ImageMet(u64),
    /// A term is higher than may be.
    HeightMet,
    /// A graph of terms has as many products as may be.
    NodesMet,
    /// A braid word has a greater index than may be.
    IndexMet,
    /// A braid word has more letters than it may.
    LengthNeeded {
        /// The most letters.
        limit: u64,
        /// How many it has.
        count: u64,
    },
}

// Gives the line that says how many letters a braid word has.
fn put_needed<K: Sink>(sink: &mut K, limit: u64, count: u64) -> Result<(), Failed>
    ensures took { Puts (K.taken sink.old) (K.taken sink.new) result (length_needed limit count).text }
    ensures cause { HasCause (K.faults sink.old) (K.faults sink.new) result }
{
    put_numbered(sink, b"limit length ", limit)?;
    put_numbered_line(sink, b" needs ", count)
}

/// Gives the line of a file that isn't accepted: the number of the line that is refused, counted from 1, and
/// the cause.
pub fn put_refused<K: Sink>(sink: &mut K, line: u64, why: &[u8]) -> Result<(), Failed>
    ensures took { Puts (K.taken sink.old) (K.taken sink.new) result (refused_line line why.now) }
    ensures cause { HasCause (K.faults sink.old) (K.faults sink.new) result }
{
    put_numbered(sink, b"refused ", line)?;
    give_all(sink, b" ")?;
    put_line(sink, why)
}

impl Written for Refusal {
    ghost answer = { refusal_answer };

    fn status(&self) -> Status {
        match self {
            Refusal::BadInput(_) => Status::Input,
            Refusal::InputMet
            | Refusal::HandlesMet(_)
            | Refusal::StepsMet(_)
            | Refusal::LengthMet(_)
            | Refusal::LettersMet(_)
            | Refusal::ImageMet(_)
            | Refusal::HeightMet
            | Refusal::NodesMet
            | Refusal::IndexMet
            | Refusal::LengthNeeded { .. } => Status::Limit,
        }
    }

    fn put<K: Sink>(&self, sink: &mut K) -> Result<(), Failed> {
        match self {
            Refusal::BadInput(fault) => fault.put(sink),
            Refusal::InputMet => put_numbered_line(sink, b"limit input ", MAX_INPUT as u64),
            Refusal::HandlesMet(handles) => put_numbered_line(sink, b"limit handles ", *handles),
            Refusal::StepsMet(steps) => put_numbered_line(sink, b"limit steps ", *steps),
            Refusal::LengthMet(limit) => put_numbered_line(sink, b"limit length ", *limit),
            Refusal::LettersMet(limit) => put_numbered_line(sink, b"limit letters ", *limit),
            Refusal::ImageMet(limit) => put_numbered_line(sink, b"limit image ", *limit),
            Refusal::HeightMet => put_numbered_line(sink, b"limit height ", MAX_HEIGHT),
            Refusal::NodesMet => put_numbered_line(sink, b"limit nodes ", u64::from(MAX_NODES)),
            Refusal::IndexMet => put_numbered_line(sink, b"limit index ", u64::from(MAX_INDEX)),
            Refusal::LengthNeeded { limit, count } => put_needed(sink, *limit, *count),
        }
    }
}

/// What a command comes to: a refusal, or what it was asked for.
#[derive(Drop)]
pub enum Comes<D: Written + Drop> {
    /// A refusal.
    Stopped(Refusal),
    /// What the command makes.
    Done(D),
}

impl<D: Written + Drop> Written for Comes<D> {
    ghost answer = { comes_answer D.answer };

    fn status(&self) -> Status {
        match self {
            Comes::Stopped(refusal) => refusal.status(),
            Comes::Done(done) => done.status(),
        }
    }

    fn put<K: Sink>(&self, sink: &mut K) -> Result<(), Failed> {
        match self {
            Comes::Stopped(refusal) => refusal.put(sink),
            Comes::Done(done) => done.put(sink),
        }
    }
}
