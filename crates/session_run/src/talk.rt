// What a session answers to lines.
ghost use Rattle.std.specs.Prelude.{◌≡◌, ◌≢◌, ℕ, ◌<◌, ◌≤◌, [], length, take, Err, OnOk};
ghost use Rattle.std.specs.Io.KnownBytes.{append_known};
ghost use Rattle.wb_base.specs.Streams.{Puts, Rose};
ghost use Rattle.session_run.specs.Conversation.{jobs_after, answer_to, heard_all};
ghost use Rattle.session_run.specs.declared.talk.Stop.TheVariants.{Fault};

use crate::command::{CommandErr, read_command};
use crate::reply::Reply;
use crate::session::Session;
use crate::writer::put_reply;
use std::alloc::Global;
use wb_base::{Failed, Sink, put_line};

// Why a line isn't answered.
#[derive(Clone, Copy, Debug, PartialEq, Eq)]
pub(crate) enum Stop {
    // The sink met a fault.
    Fault,
    // Memory ran out, before any of the answer was given.
    Memory,
}

impl From<Failed> for Stop {
    ghost from_gives = { λ _ e. e ≡ Fault };

    fn from(_failed: Failed) -> Stop {
        Stop::Fault
    }
}

// Gives the answer to a line.
fn put_answer<K: Sink>(
    alloc: Global,
    session: &mut Session,
    sink: &mut K,
    line: &[u8],
) -> Result<(), Stop>
    ensures jobs { OnOk result (session.new ≡ jobs_after session.old line.now) }
    ensures took { Puts (K.taken sink.old) (K.taken sink.new) result (answer_to session.old line.now) }
    ensures later { K.faults sink.old ≤ K.faults sink.new }
    ensures fault { result ≡ Err Stop.Fault → Rose (K.faults sink.old) (K.faults sink.new) }
    ensures memory { result ≡ Err Stop.Memory → K.taken sink.new ≡ K.taken sink.old }
    ensures waits { result ≡ Err Stop.Memory → K.waiting sink.new ≡ K.waiting sink.old }
{
    match read_command(alloc, line) {
        Ok(command) => {
            let reply = session.command(command);
            if reply == Reply::Memory {
                return Err(Stop::Memory);
            }
            Ok(put_reply(sink, session, &reply)?)
        }
        Err(CommandErr::Bad) => Ok(put_line(sink, b"bad")?),
        Err(CommandErr::Memory) => Err(Stop::Memory),
    }
}

// Gives the answer to a line and passes it on.
pub(crate) fn answer_line<K: Sink>(
    alloc: Global,
    session: &mut Session,
    sink: &mut K,
    line: &[u8],
) -> Result<(), Stop>
    ensures jobs { OnOk result (session.new ≡ jobs_after session.old line.now) }
    ensures took { Puts (K.taken sink.old) (K.taken sink.new) result (answer_to session.old line.now) }
    ensures passed { OnOk result (K.waiting sink.new ≡ 0) }
    ensures later { K.faults sink.old ≤ K.faults sink.new }
    ensures fault { result ≡ Err Stop.Fault → Rose (K.faults sink.old) (K.faults sink.new) }
    ensures memory { result ≡ Err Stop.Memory → K.taken sink.new ≡ K.taken sink.old }
    ensures waits { result ≡ Err Stop.Memory → K.waiting sink.new ≡ K.waiting sink.old }
{
    put_answer(alloc, session, sink, line)?;
    sink.done()?;
    Ok(())
}

// Hears some bytes: answers each line that an LF ends, and keeps what stands behind the last LF.
pub(crate) fn hear<K: Sink>(
    alloc: Global,
    session: &mut Session,
    sink: &mut K,
    rest: &mut Vec<u8>,
    bytes: &[u8],
) -> Result<(), Stop>
    ensures jobs { OnOk result
        (session.new
        ≡ (heard_all (record { jobs = session.old; rest = rest.old.items; text = [] }) bytes.now).jobs) }
    ensures rest { OnOk result
        (rest.new.items
        ≡ (heard_all (record { jobs = session.old; rest = rest.old.items; text = [] }) bytes.now).rest) }
    ensures took { Puts (K.taken sink.old) (K.taken sink.new) result
        (heard_all (record { jobs = session.old; rest = rest.old.items; text = [] }) bytes.now).text }
    ensures waits { result ≢ Err Stop.Fault → K.waiting sink.old ≡ 0 → K.waiting sink.new ≡ 0 }
    ensures later { K.faults sink.old ≤ K.faults sink.new }
    ensures fault { result ≡ Err Stop.Fault → Rose (K.faults sink.old) (K.faults sink.new) }

    // For want of memory it ends before one of the bytes.
    ensures memory { result ≡ Err Stop.Memory
        → (i : ℕ) × (i < length bytes.now)
        × (K.taken sink.new
        ≡ append_known (K.taken sink.old)
        (heard_all (record { jobs = session.old; rest = rest.old.items; text = [] })
        (take i bytes.now)).text) }
{
    for byte in bytes {
        if *byte == b'\n' {
            answer_line(alloc, session, sink, rest)?;
            rest.clear();
        } else if rest.push(*byte).is_err() {
            return Err(Stop::Memory);
        }
    }
    Ok(())
}
