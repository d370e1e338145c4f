ghost use Rattle.std.specs.Prelude.{◌+◌, ◌≤◌, ◌++◌, decimal, length};
ghost use Rattle.wb_base.specs.Lines.{line};
ghost use Rattle.wb_base.specs.Streams.{HasCause, Puts};

use crate::number::put_number;
use crate::stream::{Failed, Sink, give_all};

/// Gives a text as a line, with its LF.
pub fn put_line<K: Sink>(sink: &mut K, text: &[u8]) -> Result<(), Failed>
    ensures took { Puts (K.taken sink.old) (K.taken sink.new) result (line text.now) }
    ensures cause { HasCause (K.faults sink.old) (K.faults sink.new) result }
    ensures waits { K.waiting sink.new ≤ K.waiting sink.old + length (line text.now) }
{
    give_all(sink, text)?;
    give_all(sink, b"\n")
}

/// Gives a text and then a number in decimal.
pub fn put_numbered<K: Sink>(sink: &mut K, text: &[u8], number: u64) -> Result<(), Failed>
    ensures took { Puts (K.taken sink.old) (K.taken sink.new) result (text.now ++ decimal number) }
    ensures cause { HasCause (K.faults sink.old) (K.faults sink.new) result }
    ensures waits { K.waiting sink.new ≤ K.waiting sink.old + length (text.now ++ decimal number) }
{
    give_all(sink, text)?;
    put_number(sink, number)
}

/// Gives a text and then a number in decimal as a line, with its LF.
pub fn put_numbered_line<K: Sink>(sink: &mut K, text: &[u8], number: u64) -> Result<(), Failed>
    ensures took { Puts (K.taken sink.old) (K.taken sink.new) result (line (text.now ++ decimal number)) }
    ensures cause { HasCause (K.faults sink.old) (K.faults sink.new) result }
    ensures waits { K.waiting sink.new ≤ K.waiting sink.old + length (line (text.now ++ decimal number)) }
{
    put_numbered(sink, text, number)?;
    give_all(sink, b"\n")
}
