// A session over a source and a sink.
ghost use Rattle.std.specs.Prelude.{◌≡◌, ◌≢◌, ℕ, ◌+◌, ◌<◌, ◌≤◌, ◌++◌, List, [], length, take, Err, OnOk, IfSome};
ghost use Rattle.std.specs.Io.KnownBytes.{append_known, prepend_known};
ghost use Rattle.wb_base.specs.Lines.{lines_of, whole_lines};
ghost use Rattle.wb_base.specs.Streams.{HasCause, Puts, ReadsAll, Rose, Skips};
ghost use Rattle.session_run.specs.Conversation.{answers, limit_line, last_answer, session_answer};
ghost use Rattle.session_run.specs.Serving.{told, IsCutOff, IsShort, IsTold, HasServed};

use crate::session::Session;
use crate::talk::{Stop, answer_line, hear};
use crate::{MAX_INPUT, MAX_PIECE};
use std::alloc::Global;
use wb_base::{Failed, Sink, Source, Status, put_numbered_line};

// Answers the last line, where no LF ends it.
fn finish<K: Sink>(
    alloc: Global,
    session: &mut Session,
    sink: &mut K,
    rest: &[u8],
) -> Result<(), Stop>
    ensures took { Puts (K.taken sink.old) (K.taken sink.new) result (last_answer session.old rest.now) }
    ensures later { K.faults sink.old ≤ K.faults sink.new }
    ensures fault { result ≡ Err Stop.Fault → Rose (K.faults sink.old) (K.faults sink.new) }
    ensures memory { result ≡ Err Stop.Memory
        → (0 < length rest.now) × (K.taken sink.new ≡ K.taken sink.old) }
    ensures waits { result ≢ Err Stop.Fault → K.waiting sink.old ≡ 0 → K.waiting sink.new ≡ 0 }
{
    if rest.is_empty() {
        return Ok(());
    }
    answer_line(alloc, session, sink, rest)
}

// Gives the line that says that the input is too long, and passes it on.
fn put_limit<K: Sink>(sink: &mut K) -> Result<(), Failed>
    ensures took { Puts (K.taken sink.old) (K.taken sink.new) result limit_line }
    ensures passed { OnOk result (K.waiting sink.new ≡ 0) }
    ensures cause { HasCause (K.faults sink.old) (K.faults sink.new) result }
{
    put_numbered_line(sink, b"limit input ", MAX_INPUT as u64)?;
    sink.done()?;
    Ok(())
}

// Serves a session. At the limit it asks for one byte more, which it doesn't hear.
fn converse<S: Source, K: Sink>(alloc: Global, source: &mut S, sink: &mut K) -> Status
    ensures { HasServed
        (record {
          left = S.left source.old;
          reads = S.faults source.old;
          calls = S.calls source.old;
          taken = K.taken sink.old;
          waiting = K.waiting sink.old;
          writes = K.faults sink.old;
        })
        (record {
          left = S.left source.new;
          reads = S.faults source.new;
          calls = S.calls source.new;
          taken = K.taken sink.new;
          waiting = K.waiting sink.new;
          writes = K.faults sink.new;
        })
        result }
{
    let mut session = Session::new(alloc);
    let mut rest = Vec::new(alloc);
    let mut count = 0;
    'hearing: loop {
        let room = MAX_PIECE.min((MAX_INPUT - count).max(1));
        let mut buffer = [0; MAX_PIECE];
        let piece = &mut buffer[..room];
        let Ok(n) = source.take(piece) else {
            return Status::ReadFault;
        };
        if n == 0 {
            return match finish(alloc, &mut session, sink, &rest) {
                Ok(()) => Status::Done,
                Err(Stop::Fault) => Status::WriteFault,
                Err(Stop::Memory) => Status::Memory,
            };
        }
        if count == MAX_INPUT {
            return match put_limit(sink) {
                Ok(()) => Status::Limit,
                Err(Failed) => Status::WriteFault,
            };
        }
        match hear(alloc, &mut session, sink, &mut rest, &piece[..n]) {
            Ok(()) => count += n,
            Err(Stop::Fault) => return Status::WriteFault,
            Err(Stop::Memory) => return Status::Memory,
        }
    }
}

/// Serves a session: reads command lines, and answers each before more bytes are taken.
///
/// At most 4,096 bytes are taken at one time, and at most one past the limit on the input. A line that is
/// no command is answered by `bad`, and the session goes on. The statuses are `Done` at the end of the
/// input, `Limit`, `ReadFault`, `WriteFault` and `Memory`.
pub fn serve<S: Source, K: Sink>(alloc: Global, source: &mut S, sink: &mut K) -> Status
    // What is written, and with which status, is a function of the input.
    ensures answer { IfSome (S.left source.old)
        (λ input. IsTold (session_answer input) result (K.taken sink.old) (K.taken sink.new)) }

    // At the end of the input all its lines were answered.
    ensures done { result ≡ Status.Done
        → (input : List ℕ) × ReadsAll (S.left source.old) (S.left source.new) input
        × (length input ≤ MAX_INPUT)
        × (K.taken sink.new ≡ append_known (K.taken sink.old) (answers [] (lines_of input))) }

    // One byte past the limit the lines that end within it were answered, and the limit was named.
    ensures limit { result ≡ Status.Limit
        → (front : List ℕ) × (length front ≡ MAX_INPUT + 1)
        × (S.left source.old ≡ prepend_known front (S.left source.new))
        × (K.taken sink.new
        ≡ append_known (K.taken sink.old)
        (answers [] (whole_lines (take MAX_INPUT front)) ++ limit_line)) }

    // At a fault of the source exactly the whole lines among the bytes taken were answered.
    ensures read { result ≡ Status.ReadFault
        → (front : List ℕ) × (S.left source.old ≡ prepend_known front (S.left source.new))
        × (K.taken sink.new ≡ append_known (K.taken sink.old) (answers [] (whole_lines front))) }

    // At a fault of the sink a front of the answer was taken, with the answers to the settled whole lines.
    ensures write { result ≡ Status.WriteFault
        → (front : List ℕ) × (given : List ℕ) × (S.left source.old ≡ prepend_known front (S.left source.new))
        × (K.taken sink.new ≡ append_known (K.taken sink.old) given)
        × IsCutOff front (told (S.left source.new)) given }

    // For want of memory the lines before the one that met it were answered, at least the settled ones.
    ensures memory { result ≡ Status.Memory
        → (front : List ℕ) × (given : List ℕ) × (S.left source.old ≡ prepend_known front (S.left source.new))
        × (K.taken sink.new ≡ append_known (K.taken sink.old) given) × IsShort front given }

    // No other status comes.
    ensures never { (result ≢ Status.Refused) × (result ≢ Status.Words) × (result ≢ Status.Input) }

    // A fault is answered only where the count of its stream rose.
    ensures read_fault { result ≡ Status.ReadFault → Rose (S.faults source.old) (S.faults source.new) }
    ensures write_fault { result ≡ Status.WriteFault → Rose (K.faults sink.old) (K.faults sink.new) }
    ensures read_later { S.faults source.old ≤ S.faults source.new }
    ensures write_later { K.faults sink.old ≤ K.faults sink.new }

    // Each reply was passed on.
    ensures waits { result ≢ Status.WriteFault → K.waiting sink.old ≡ 0 → K.waiting sink.new ≡ 0 }

    // What was read and written, with each status, in one.
    ensures served { HasServed
        (record {
          left = S.left source.old;
          reads = S.faults source.old;
          calls = S.calls source.old;
          taken = K.taken sink.old;
          waiting = K.waiting sink.old;
          writes = K.faults sink.old;
        })
        (record {
          left = S.left source.new;
          reads = S.faults source.new;
          calls = S.calls source.new;
          taken = K.taken sink.new;
          waiting = K.waiting sink.new;
          writes = K.faults sink.new;
        })
        result }

    // A front of the input was taken, no further than one byte past the limit, in at most so many calls.
    ensures front { (n : ℕ) × (n ≤ MAX_INPUT + 1) × Skips (S.left source.old) (S.left source.new) n }
    ensures calls { S.calls source.new ≤ S.calls source.old + (MAX_INPUT + 2) }
{
    converse(alloc, source, sink)
}
