// The top call.
ghost use Rattle.std.specs.Prelude.{◌≡◌, ◌≢◌, ◌+◌, ◌≤◌, ℕ, [], None, drop, map, string_bytes, ◌⊎◌, IfSome, OnOk};
ghost use Rattle.std.specs.Option.{option_map};
ghost use Rattle.wb_base.specs.Streams.{HasCause, Puts, Rose, Skips};
ghost use Rattle.wb_command.specs.declared.TheConstants.{MAX_INPUT};
ghost use Rattle.wb_command.specs.Answers.{IsEnding, IsTold, Told};
ghost use Rattle.wb_command.specs.Meaning.{reads_nothing, reads_pieces, HasAnswer, HasRun, HasWritten};
ghost use Rattle.wb_top.specs.Commands.{command_of};
ghost use Rattle.wb_top.specs.Program.{means, usage};

use crate::command::{read_command, run_command};
use std::alloc::Global;
use wb_base::{Failed, Sink, Source, Status, put_line};

// Gives the usage line, and passes it on.
fn put_usage<K: Sink>(sink: &mut K) -> Result<(), Failed>
    ensures took { Puts (K.taken sink.old) (K.taken sink.new) result usage.text }
    ensures passed { OnOk result (K.waiting sink.new ≡ 0) }
    ensures cause { HasCause (K.faults sink.old) (K.faults sink.new) result }
{
    put_line(sink, b"usage: braid_bench COMMAND NUMBERS")?;
    sink.done()
}

// Does what the words say. Words that are no command are answered by the usage line.
fn run_words<S: Source, K: Sink>(
    alloc: Global,
    words: &[String],
    source: &mut S,
    sink: &mut K,
) -> Status
    ensures ran { HasRun (means (map string_bytes words.now)) source.old source.new sink.old sink.new
        (record {
          left = S.left source.old;
          reads = S.faults source.old;
          calls = S.calls source.old;
          taken = K.taken sink.old;
          waiting = K.waiting sink.old;
          writes = K.faults sink.old;
        })
        (record {
          left = S.left source.new;
          reads = S.faults source.new;
          calls = S.calls source.new;
          taken = K.taken sink.new;
          waiting = K.waiting sink.new;
          writes = K.faults sink.new;
        })
        result }
    ensures usage { command_of (map string_bytes words.now) ≡ None →
        (source.new ≡ source.old) × ((result ≡ Status.Words) ⊎ (result ≡ Status.WriteFault))
        × Told usage result (K.taken sink.old) (K.taken sink.new) }
    ensures words { result ≡ Status.Words → command_of (map string_bytes words.now) ≡ None }
{
    match read_command(words) {
        Some(command) => run_command(alloc, &command, source, sink),
        None => match put_usage(sink) {
            Ok(()) => Status::Words,
            Err(Failed) => Status::WriteFault,
        },
    }
}

/// Does all that the program does: `words` are the words of its command line after its name.
///
/// It reads the input of a command that has one, to its end or to one byte past its limit, and writes the
/// one answer that the words and the input have. A session answers each line before more is read. Otherwise
/// nothing is written after a fault of the source or for want of memory; after a fault of the sink a front of
/// the answer was taken. Words that are no command read nothing, and never end for want of memory.
pub fn run<S: Source, K: Sink>(
    alloc: Global,
    words: &[String],
    source: &mut S,
    sink: &mut K,
) -> Status
    // What is written, and with which status.
    ensures answer { let m = means (map string_bytes words.now) in
        IfSome (S.left source.old) (λ input.
        IsTold (HasAnswer m input) result (K.taken sink.old) (K.taken sink.new)) }

    // What a command that is done has written is the answer, and what that says of the input holds.
    ensures says { let m = means (map string_bytes words.now) in
        result ≡ Status.Done →
        IfSome (S.left source.old) (λ input.
        HasWritten m m.says input (K.taken sink.old) (K.taken sink.new)) }

    // What was written with status Refused is the answer, and what that says of the input holds.
    ensures refused { let m = means (map string_bytes words.now) in
        result ≡ Status.Refused →
        IfSome (S.left source.old) (λ input.
        HasWritten m m.refuses input (K.taken sink.old) (K.taken sink.new)) }

    // Words that are no command are told so, with nothing read; no others are.
    ensures usage { command_of (map string_bytes words.now) ≡ None →
        (source.new ≡ source.old) × ((result ≡ Status.Words) ⊎ (result ≡ Status.WriteFault))
        × Told usage result (K.taken sink.old) (K.taken sink.new) }
    ensures words { result ≡ Status.Words → command_of (map string_bytes words.now) ≡ None }

    // A fault is answered only where the count of its stream rose.
    ensures read { result ≡ Status.ReadFault → Rose (S.faults source.old) (S.faults source.new) }
    ensures write { result ≡ Status.WriteFault → Rose (K.faults sink.old) (K.faults sink.new) }
    ensures read_later { S.faults source.old ≤ S.faults source.new }
    ensures write_later { K.faults sink.old ≤ K.faults sink.new }

    // Where a command doesn't answer in pieces, and the input wasn't read or memory ran out, the sink is as
    // it
    // was, and after any other status but a fault of the sink no byte waits.
    ensures nothing { (result ≡ Status.ReadFault) ⊎ (result ≡ Status.Memory) →
        (means (map string_bytes words.now)).reads ≢ reads_pieces → sink.new ≡ sink.old }
    ensures passed { (means (map string_bytes words.now)).reads ≢ reads_pieces →
        result ≢ Status.ReadFault → result ≢ Status.WriteFault → result ≢ Status.Memory
        → K.waiting sink.new ≡ 0 }
    ensures waits { result ≢ Status.WriteFault → K.waiting sink.old ≡ 0 → K.waiting sink.new ≡ 0 }

    // With an answer to a command that has an input this was read to its end, or to one byte past its limit.
    ensures left { IsEnding result → (means (map string_bytes words.now)).reads ≢ reads_nothing →
        S.left source.new ≡ option_map (drop (MAX_INPUT + 1)) (S.left source.old) }

    // A command that has none reads nothing, and its answer and what that says stand also where the source
    // tells nothing.
    ensures alone { let m = means (map string_bytes words.now) in
        m.reads ≡ reads_nothing →
        (source.new ≡ source.old) × (result ≢ Status.ReadFault)
        × IsTold (HasAnswer m []) result (K.taken sink.old) (K.taken sink.new) }
    ensures says_alone { let m = means (map string_bytes words.now) in
        result ≡ Status.Done → m.reads ≡ reads_nothing →
        HasWritten m m.says [] (K.taken sink.old) (K.taken sink.new) }

    // What a command that answers in pieces has read and written, with each status.
    ensures served { (means (map string_bytes words.now)).serves
        (record {
          left = S.left source.old;
          reads = S.faults source.old;
          calls = S.calls source.old;
          taken = K.taken sink.old;
          waiting = K.waiting sink.old;
          writes = K.faults sink.old;
        })
        (record {
          left = S.left source.new;
          reads = S.faults source.new;
          calls = S.calls source.new;
          taken = K.taken sink.new;
          waiting = K.waiting sink.new;
          writes = K.faults sink.new;
        })
        result }

    // In every case a front of it was taken, no further than that byte, in at most MAX_INPUT + 2 calls.
    ensures front { (n : ℕ) × (n ≤ MAX_INPUT + 1) × Skips (S.left source.old) (S.left source.new) n }
    ensures calls { S.calls source.new ≤ S.calls source.old + (MAX_INPUT + 2) }
{
    run_words(alloc, words, source, sink)
}
