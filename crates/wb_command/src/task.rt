// Commands, and their runs over a source and a sink.
ghost use Rattle.std.specs.Prelude.{◌≡◌, ◌≢◌, ◌⊎◌, ◌+◌, ◌≤◌, ℕ, List, [], false, true, drop, IfOk, IfSome, Err};
ghost use Rattle.std.specs.Option.{option_map};
ghost use Rattle.wb_base.specs.Streams.{Rose, Skips};
ghost use Rattle.wb_command.specs.Answers.{IsEnding, Told};
ghost use Rattle.wb_command.specs.Meaning.{Meaning, is_whole, reads_nothing, reads_whole, reads_pieces, HasAnswer, IsSound, HasRun};
ghost use Rattle.wb_command.specs.Refusals.{comes_answer};
ghost use Rattle.wb_command.specs.declared.task.Stop.TheVariants.{ReadFault, Memory};

use crate::MAX_INPUT;
use crate::refusal::{Comes, Refusal, Written};
use std::alloc::{AllocError, Global};
use wb_base::{ReadErr, Sink, Source, Status, read_all};

/// A command that reads its whole input before it answers, or has none.
pub trait Task {
    /// What it makes where it isn't stopped.
    type Done: Written + Drop;

    /// What it means.
    ghost meaning: { Self → Meaning };

    /// Whether it has an input.
    fn reads(&self) -> bool
        ensures whole { result ≡ is_whole (meaning self.now).reads }
        ensures once { (meaning self.now).reads ≢ reads_pieces };

    /// An input has one answer at most, and what this says of the input holds.
    fn law_sound(&self)
        ensures { IsSound (meaning self.now) };

    /// What it comes to on an input that isn't too long.
    fn perform(&self, alloc: Global, input: &[u8]) -> Result<Comes<Self::Done>, AllocError>
        ensures { IfOk result (λ outcome. (meaning self.now).answers input.now
            (comes_answer Self.Done.answer outcome)) };
}

/// A command that answers its input in pieces.
pub trait Served {
    /// What it means.
    ghost meaning: { Self → Meaning };

    /// An input has one answer at most, and what this says of the input holds.
    fn law_served(&self)
        ensures { IsSound (meaning self.now) };

    /// Reads and answers all of the input.
    fn serve<S: Source, K: Sink>(&self, alloc: Global, source: &mut S, sink: &mut K) -> Status
        ensures ran { HasRun (meaning self.now) source.old source.new sink.old sink.new
            (record {
              left = S.left source.old;
              reads = S.faults source.old;
              calls = S.calls source.old;
              taken = K.taken sink.old;
              waiting = K.waiting sink.old;
              writes = K.faults sink.old;
            })
            (record {
              left = S.left source.new;
              reads = S.faults source.new;
              calls = S.calls source.new;
              taken = K.taken sink.new;
              waiting = K.waiting sink.new;
              writes = K.faults sink.new;
            })
            result }
        ensures words { result ≢ Status.Words };
}

/// Why a command has come to nothing.
#[derive(Debug, Drop)]
pub enum Stop {
    /// The source met a fault.
    ReadFault,
    /// Memory ran out.
    Memory,
}

impl From<AllocError> for Stop {
    ghost from_gives = { λ _ e. e ≡ Memory };

    fn from(_error: AllocError) -> Stop {
        Stop::Memory
    }
}

// Reads the whole input of a command that has one, and does it.
fn perform_reading<T: Task, S: Source>(
    alloc: Global,
    task: &T,
    source: &mut S,
) -> Result<Comes<T::Done>, Stop>
    requires reads { (T.meaning task.now).reads ≡ reads_whole }
    ensures outcome { IfOk result (λ outcome.
        IfSome (S.left source.old) (λ input.
        HasAnswer (T.meaning task.now) input (comes_answer T.Done.answer outcome))) }
    ensures left { IfOk result (λ _. S.left source.new ≡ option_map (drop (MAX_INPUT + 1))
        (S.left source.old)) }
    ensures front { (n : ℕ) × (n ≤ MAX_INPUT + 1) × Skips (S.left source.old) (S.left source.new) n }
    ensures fault { result ≡ Err Stop.ReadFault → Rose (S.faults source.old) (S.faults source.new) }
    ensures later { S.faults source.old ≤ S.faults source.new }
    ensures calls { S.calls source.new ≤ S.calls source.old + (MAX_INPUT + 2) }
{
    match read_all(alloc, source, MAX_INPUT) {
        Ok(input) => Ok(task.perform(alloc, &input)?),
        Err(ReadErr::TooLarge) => Ok(Comes::Stopped(Refusal::InputMet)),
        Err(ReadErr::Fault) => Err(Stop::ReadFault),
        Err(ReadErr::Memory) => Err(Stop::Memory),
    }
}

// Writes an outcome, so that no byte waits, and answers its status, or a fault of the sink.
pub(crate) fn write<D: Written, K: Sink>(outcome: &D, sink: &mut K) -> Status
    ensures told { Told (D.answer outcome.now) result (K.taken sink.old) (K.taken sink.new) }
    ensures ending { IsEnding result ⊎ (result ≡ Status.WriteFault) }
    ensures fault { result ≡ Status.WriteFault → Rose (K.faults sink.old) (K.faults sink.new) }
    ensures later { K.faults sink.old ≤ K.faults sink.new }
    ensures waits { result ≢ Status.WriteFault → K.waiting sink.new ≡ 0 }
{
    if outcome.put(sink).is_err() || sink.done().is_err() {
        return Status::WriteFault;
    }
    outcome.status()
}

// Runs a command that has an input.
fn run_reading<T: Task, S: Source, K: Sink>(
    alloc: Global,
    task: &T,
    source: &mut S,
    sink: &mut K,
) -> Status
    requires reads { (T.meaning task.now).reads ≡ reads_whole }
    ensures ran { HasRun (T.meaning task.now) source.old source.new sink.old sink.new
        (record {
          left = S.left source.old;
          reads = S.faults source.old;
          calls = S.calls source.old;
          taken = K.taken sink.old;
          waiting = K.waiting sink.old;
          writes = K.faults sink.old;
        })
        (record {
          left = S.left source.new;
          reads = S.faults source.new;
          calls = S.calls source.new;
          taken = K.taken sink.new;
          waiting = K.waiting sink.new;
          writes = K.faults sink.new;
        })
        result }
    ensures words { result ≢ Status.Words }
{
    task.law_sound();
    match perform_reading(alloc, task, source) {
        Ok(outcome) => write(&outcome, sink),
        Err(Stop::ReadFault) => Status::ReadFault,
        Err(Stop::Memory) => Status::Memory,
    }
}

// Runs a command that has none.
fn run_alone<T: Task, S: Source, K: Sink>(
    alloc: Global,
    task: &T,
    source: &mut S,
    sink: &mut K,
) -> Status
    requires alone { (T.meaning task.now).reads ≡ reads_nothing }
    ensures ran { HasRun (T.meaning task.now) source.old source.new sink.old sink.new
        (record {
          left = S.left source.old;
          reads = S.faults source.old;
          calls = S.calls source.old;
          taken = K.taken sink.old;
          waiting = K.waiting sink.old;
          writes = K.faults sink.old;
        })
        (record {
          left = S.left source.new;
          reads = S.faults source.new;
          calls = S.calls source.new;
          taken = K.taken sink.new;
          waiting = K.waiting sink.new;
          writes = K.faults sink.new;
        })
        result }
    ensures words { result ≢ Status.Words }
{
    task.law_sound();
    match task.perform(alloc, &[]) {
        Ok(outcome) => write(&outcome, sink),
        Err(AllocError) => Status::Memory,
    }
}

/// Runs a command: reads its input, if it has one, and writes its one answer to this.
///
/// The input is read to its end, or to one byte past its limit. Nothing is written after a fault of the
/// source or for want of memory; after a fault of the sink a front of the answer was taken.
pub fn run_task<T: Task, S: Source, K: Sink>(
    alloc: Global,
    task: &T,
    source: &mut S,
    sink: &mut K,
) -> Status
    ensures ran { HasRun (T.meaning task.now) source.old source.new sink.old sink.new
        (record {
          left = S.left source.old;
          reads = S.faults source.old;
          calls = S.calls source.old;
          taken = K.taken sink.old;
          waiting = K.waiting sink.old;
          writes = K.faults sink.old;
        })
        (record {
          left = S.left source.new;
          reads = S.faults source.new;
          calls = S.calls source.new;
          taken = K.taken sink.new;
          waiting = K.waiting sink.new;
          writes = K.faults sink.new;
        })
        result }
    ensures words { result ≢ Status.Words }
{
    if task.reads() {
        run_reading(alloc, task, source, sink)
    } else {
        run_alone(alloc, task, source, sink)
    }
}
