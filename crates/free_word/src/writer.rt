ghost use Rattle.std.specs.Prelude.{◌+◌, ◌≤◌, length};
ghost use Rattle.std.specs.List.{flat_map};
ghost use Rattle.wb_base.specs.Streams.{HasCause, Puts};
ghost use Rattle.free_word.specs.FreeText.{gen_text, next_text, free_text};

use crate::generator::Gen;
use crate::word::FreeWord;
use wb_base::{Failed, Sink, give_all, put_signed};

// Gives a generator's index, behind a minus sign for an inverse.
fn put_gen<K: Sink>(sink: &mut K, x: Gen) -> Result<(), Failed>
    ensures took { Puts (K.taken sink.old) (K.taken sink.new) result (gen_text x) }
    ensures cause { HasCause (K.faults sink.old) (K.faults sink.new) result }
    ensures waits { K.waiting sink.new ≤ K.waiting sink.old + length (gen_text x) }
{
    put_signed(sink, x.negative, u64::from(x.index))
}

// Gives a generator behind a space.
fn put_next<K: Sink>(sink: &mut K, x: Gen) -> Result<(), Failed>
    ensures took { Puts (K.taken sink.old) (K.taken sink.new) result (next_text x) }
    ensures cause { HasCause (K.faults sink.old) (K.faults sink.new) result }
    ensures waits { K.waiting sink.new ≤ K.waiting sink.old + length (next_text x) }
{
    give_all(sink, b" ")?;
    put_gen(sink, x)
}

// Gives generators, each behind a space.
fn put_rest<K: Sink>(sink: &mut K, letters: &[Gen]) -> Result<(), Failed>
    ensures took { Puts (K.taken sink.old) (K.taken sink.new) result (flat_map next_text letters.now) }
    ensures cause { HasCause (K.faults sink.old) (K.faults sink.new) result }
    ensures waits { K.waiting sink.new ≤ K.waiting sink.old + length (flat_map next_text letters.now) }
{
    for x in letters {
        put_next(sink, *x)?;
    }
    Ok(())
}

/// Gives a free word as signed indices with one space between them, and no LF.
///
/// After `Failed` the sink has taken a front of the text. It takes no memory.
pub fn put_free<K: Sink>(sink: &mut K, word: &FreeWord) -> Result<(), Failed>
    ensures took { Puts (K.taken sink.old) (K.taken sink.new) result (free_text word.now) }
    ensures cause { HasCause (K.faults sink.old) (K.faults sink.new) result }
    ensures waits { K.waiting sink.new ≤ K.waiting sink.old + length (free_text word.now) }
{
    match word.letters() {
        [] => Ok(()),
        [first, rest @ ..] => {
            put_gen(sink, *first)?;
            put_rest(sink, rest)
        }
    }
}
