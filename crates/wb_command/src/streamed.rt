// Commands that read their input as a stream.
ghost use Rattle.std.specs.Prelude.{◌≡◌, ◌≢◌, ◌+◌, ◌≤◌, ℕ, drop, IfOk, IfSome, Err};
ghost use Rattle.std.specs.Option.{option_map};
ghost use Rattle.wb_base.specs.Streams.{Rose, Skips};
ghost use Rattle.wb_command.specs.Meaning.{Meaning, reads_whole, HasAnswer, IsSound, HasRun};
ghost use Rattle.wb_command.specs.Refusals.{comes_answer};
ghost use Rattle.wb_command.specs.declared.task.Stop.TheVariants.{ReadFault};

use crate::MAX_INPUT;
use crate::refusal::{Comes, Written};
use crate::task::{Stop, write};
use std::alloc::Global;
use wb_base::{Sink, Source, Status};

/// A command that reads its input to its end in pieces, and then answers.
pub trait Streamed {
    /// What it makes where it isn't stopped.
    type Done: Written + Drop;

    /// What it means.
    ghost meaning: { Self → Meaning };

    /// It reads its whole input; an input has one answer at most, and what this says of the input holds.
    fn law_streamed(&self)
        ensures reads { (meaning self.now).reads ≡ reads_whole }
        ensures sound { IsSound (meaning self.now) };

    /// What it comes to on all bytes of a source. Of more bytes than the limit of an input one past it is
    /// taken, and none behind that.
    fn perform<S: Source>(&self, alloc: Global, source: &mut S) -> Result<Comes<Self::Done>, Stop>
        ensures outcome { IfOk result (λ outcome.
            IfSome (S.left source.old) (λ input.
            HasAnswer (meaning self.now) input (comes_answer Self.Done.answer outcome))) }
        ensures left { IfOk result (λ _. S.left source.new ≡ option_map (drop (MAX_INPUT + 1))
            (S.left source.old)) }
        ensures front { (n : ℕ) × (n ≤ MAX_INPUT + 1) × Skips (S.left source.old) (S.left source.new) n }
        ensures fault { result ≡ Err ReadFault → Rose (S.faults source.old) (S.faults source.new) }
        ensures later { S.faults source.old ≤ S.faults source.new }
        ensures calls { S.calls source.new ≤ S.calls source.old + (MAX_INPUT + 2) };
}

/// Runs a command that reads its input as a stream, and writes its one answer.
///
/// Nothing is written after a fault of the source or for want of memory; after a fault of the sink a front of
/// the answer was taken.
pub fn run_streamed<T: Streamed, S: Source, K: Sink>(
    alloc: Global,
    task: &T,
    source: &mut S,
    sink: &mut K,
) -> Status
    ensures ran { HasRun (T.meaning task.now) source.old source.new sink.old sink.new
        (record {
          left = S.left source.old;
          reads = S.faults source.old;
          calls = S.calls source.old;
          taken = K.taken sink.old;
          waiting = K.waiting sink.old;
          writes = K.faults sink.old;
        })
        (record {
          left = S.left source.new;
          reads = S.faults source.new;
          calls = S.calls source.new;
          taken = K.taken sink.new;
          waiting = K.waiting sink.new;
          writes = K.faults sink.new;
        })
        result }
    ensures words { result ≢ Status.Words }
{
    task.law_streamed();
    match task.perform(alloc, source) {
        Ok(outcome) => write(&outcome, sink),
        Err(Stop::ReadFault) => Status::ReadFault,
        Err(Stop::Memory) => Status::Memory,
    }
}
