// The lines of a reverse file, as they are written of a run that is done.
ghost use Rattle.std.specs.Prelude.{◌≡◌, ◌+◌, ◌^◌, ◌≤◌, ◌<◌, ◌++◌, length, take, drop, slice_get, Some};
ghost use Rattle.std.specs.List.{flat_map};
ghost use Rattle.wb_base.specs.Lines.{line};
ghost use Rattle.wb_base.specs.Streams.{HasCause, Puts};
ghost use Rattle.wb_base.specs.declared.TheConstants.{MAX_CHUNK};
ghost use Rattle.braid_word.specs.Words.{inverse};
ghost use Rattle.braid_word.specs.Notation.{next_text, word_field};
ghost use Rattle.braid_word.specs.declared.TheConstants.{LETTERS_AT_ONCE};
ghost use Rattle.word_reverse.specs.declared.TheConstants.{STEPS_AT_ONCE};
ghost use Rattle.word_reverse.specs.ReverseText.{step_line, head_text, tail_text, reverse_text};
ghost use Rattle.word_reverse.specs.Written.{cut_of, side_of, reversal_of};

use crate::STEPS_AT_ONCE;
use crate::progress::RevProgress;
use crate::reverser::Reverser;
use braid_word::{LETTERS_AT_ONCE, Letter, push_next_letter, put_word_line};
use wb_base::{Chunk, Failed, Sink, give_all, put_line};

/// A word of the fraction u v^-1 that a run has reached, whose present word is cut at this place, counted
/// from 0, into u and the inverse of v.
#[derive(Clone, Copy, Debug)]
pub enum Side {
    /// The word u.
    Left(u32),
    /// The word v.
    Right(u32),
}

// The k-th letter of the present word before a place, both counted from 0.
fn left_at(run: &Reverser, cut: u32, k: u32) -> Letter
    requires low { k < cut }
    requires cut { cut ≤ length run.now.run.present }
    ensures { slice_get (take cut run.now.run.present) k ≡ Some result }
{
    run.current_at(k)
}

// The k-th letter of the inverse of those from a place on.
fn right_at(run: &Reverser, cut: u32, k: u32) -> Letter
    requires { cut + k < length run.now.run.present }
    ensures { slice_get (inverse (drop cut run.now.run.present)) k ≡ Some result }
{
    run.current_at(run.current_len() - 1 - k).opposite()
}

// The k-th letter of such a word, counted from 0.
fn side_at(run: &Reverser, side: Side, k: u32) -> Letter
    requires cut { cut_of side ≤ length run.now.run.present }
    requires within { k < length (side_of side run.now.run.present) }
    ensures { slice_get (side_of side run.now.run.present) k ≡ Some result }
{
    match side {
        Side::Left(cut) => left_at(run, cut, k),
        Side::Right(cut) => right_at(run, cut, k),
    }
}

// How many letters it has.
fn side_len(run: &Reverser, side: Side) -> u32
    requires { cut_of side ≤ length run.now.run.present }
    ensures { result ≡ length (side_of side run.now.run.present) }
{
    match side {
        Side::Left(cut) => cut,
        Side::Right(cut) => run.current_len() - cut,
    }
}

// Gives a few of its letters, each behind a space, at once.
fn put_some_letters<K: Sink>(
    sink: &mut K,
    run: &Reverser,
    side: Side,
    from: u32,
    count: u32,
) -> Result<(), Failed>
    requires few { count ≤ LETTERS_AT_ONCE }
    requires cut { cut_of side ≤ length run.now.run.present }
    requires within { from + count ≤ length (side_of side run.now.run.present) }
    requires fits { from + count < 2 ^ 32 }
    ensures took { Puts (K.taken sink.old) (K.taken sink.new) result
        (flat_map next_text (take count (drop from (side_of side run.now.run.present)))) }
    ensures cause { HasCause (K.faults sink.old) (K.faults sink.new) result }
    ensures waits { K.waiting sink.new ≤ K.waiting sink.old
        + length (flat_map next_text (take count (drop from (side_of side run.now.run.present)))) }
{
    let mut text = Chunk::new();
    for k in 0..count {
        push_next_letter(&mut text, side_at(run, side, from + k));
    }
    give_all(sink, text.bytes())
}

// Gives all of them.
fn put_letters<K: Sink>(sink: &mut K, run: &Reverser, side: Side) -> Result<(), Failed>
    requires { cut_of side ≤ length run.now.run.present }
    ensures took { Puts (K.taken sink.old) (K.taken sink.new) result
        (word_field (side_of side run.now.run.present)) }
    ensures cause { HasCause (K.faults sink.old) (K.faults sink.new) result }
    ensures waits { K.waiting sink.new ≤ K.waiting sink.old
        + length (word_field (side_of side run.now.run.present)) }
{
    let mut put = 0;
    'putting: while put < side_len(run, side) {
        let count = (side_len(run, side) - put).min(LETTERS_AT_ONCE as u32);
        put_some_letters(sink, run, side, put, count)?;
        put += count;
    }
    Ok(())
}

// Gives the line of a keyword and such a word.
fn put_side_line<K: Sink>(
    sink: &mut K,
    keyword: &[u8],
    run: &Reverser,
    side: Side,
) -> Result<(), Failed>
    requires { cut_of side ≤ length run.now.run.present }
    ensures took { Puts (K.taken sink.old) (K.taken sink.new) result
        (line (keyword.now ++ word_field (side_of side run.now.run.present))) }
    ensures cause { HasCause (K.faults sink.old) (K.faults sink.new) result }
    ensures waits { K.waiting sink.new ≤ K.waiting sink.old
        + length (line (keyword.now ++ word_field (side_of side run.now.run.present))) }
{
    give_all(sink, keyword)?;
    put_letters(sink, run, side)?;
    give_all(sink, b"\n")
}

// Adds the line of a step at this place, counted from 1, to a chunk: at most 23 bytes.
fn push_step(text: &mut Chunk, place: u32)
    requires room { length text.old + 23 ≤ MAX_CHUNK }
    ensures text { text.new ≡ text.old ++ step_line place }
    ensures size { length text.new ≤ length text.old + 23 }
{
    text.push(b"r ");
    text.push_number(u64::from(place));
    text.push(b"\n");
}

// Gives the lines of a few steps at once.
fn put_some_steps<K: Sink>(
    sink: &mut K,
    run: &Reverser,
    from: u32,
    count: u32,
) -> Result<(), Failed>
    requires few { count ≤ STEPS_AT_ONCE }
    requires within { from + count ≤ length run.now.run.places }
    requires fits { from + count < 2 ^ 32 }
    ensures took { Puts (K.taken sink.old) (K.taken sink.new) result
        (flat_map step_line (take count (drop from run.now.run.places))) }
    ensures cause { HasCause (K.faults sink.old) (K.faults sink.new) result }
    ensures waits { K.waiting sink.new ≤ K.waiting sink.old
        + length (flat_map step_line (take count (drop from run.now.run.places))) }
{
    let mut text = Chunk::new();
    for k in 0..count {
        push_step(&mut text, run.step_at(from + k));
    }
    give_all(sink, text.bytes())
}

// Gives the lines of all steps.
fn put_steps<K: Sink>(sink: &mut K, run: &Reverser) -> Result<(), Failed>
    ensures took { Puts (K.taken sink.old) (K.taken sink.new) result
        (flat_map step_line run.now.run.places) }
    ensures cause { HasCause (K.faults sink.old) (K.faults sink.new) result }
    ensures waits { K.waiting sink.new ≤ K.waiting sink.old + length (flat_map step_line run.now.run.places) }
{
    let mut put = 0;
    'putting: while put < run.steps_done() {
        let count = (run.steps_done() - put).min(STEPS_AT_ONCE);
        put_some_steps(sink, run, put, count)?;
        put += count;
    }
    Ok(())
}

// Gives the lines before the steps.
fn put_head<K: Sink>(sink: &mut K, word: &[Letter]) -> Result<(), Failed>
    ensures took { Puts (K.taken sink.old) (K.taken sink.new) result (head_text word.now) }
    ensures cause { HasCause (K.faults sink.old) (K.faults sink.new) result }
    ensures waits { K.waiting sink.new ≤ K.waiting sink.old + length (head_text word.now) }
{
    put_line(sink, b"reverse-trace 1")?;
    put_word_line(sink, b"word", word)
}

// Gives the lines behind the steps, where the fraction is cut at this place.
fn put_tail<K: Sink>(sink: &mut K, run: &Reverser, cut: u32) -> Result<(), Failed>
    requires { cut ≤ length run.now.run.present }
    ensures took { Puts (K.taken sink.old) (K.taken sink.new) result
        (tail_text (take cut run.now.run.present) (inverse (drop cut run.now.run.present))) }
    ensures cause { HasCause (K.faults sink.old) (K.faults sink.new) result }
    ensures waits { K.waiting sink.new ≤ K.waiting sink.old + length
        (tail_text (take cut run.now.run.present) (inverse (drop cut run.now.run.present))) }
{
    put_side_line(sink, b"left", run, Side::Left(cut))?;
    put_side_line(sink, b"right", run, Side::Right(cut))?;
    put_line(sink, b"end")
}

// Gives the lines from the first step on.
fn put_body<K: Sink>(sink: &mut K, run: &Reverser, cut: u32) -> Result<(), Failed>
    requires { cut ≤ length run.now.run.present }
    ensures took { Puts (K.taken sink.old) (K.taken sink.new) result
        (flat_map step_line run.now.run.places
        ++ tail_text (take cut run.now.run.present) (inverse (drop cut run.now.run.present))) }
    ensures cause { HasCause (K.faults sink.old) (K.faults sink.new) result }
    ensures waits { K.waiting sink.new ≤ K.waiting sink.old + length
        (flat_map step_line run.now.run.places
        ++ tail_text (take cut run.now.run.present) (inverse (drop cut run.now.run.present))) }
{
    put_steps(sink, run)?;
    put_tail(sink, run, cut)
}

/// Gives the reverse file of a word and its run, of version 1: the word, the places of the corners that were
/// turned, counted from 1, and the fraction that was reached.
///
/// That the run is one of this word isn't tested; where it is, the file is accepted, by
/// [`law_written_reversal`](crate::law_written_reversal). After `Failed` the sink has taken a front of the
/// file. It takes no memory. The format is this project's.
pub fn put_reversal<K: Sink>(sink: &mut K, word: &[Letter], run: &Reverser) -> Result<(), Failed>
    requires { run.now.run.progress ≡ RevProgress.Done }
    ensures took { Puts (K.taken sink.old) (K.taken sink.new) result
        (reverse_text (reversal_of word.now run.now.run)) }
    ensures cause { HasCause (K.faults sink.old) (K.faults sink.new) result }
    ensures waits { K.waiting sink.new ≤ K.waiting sink.old
        + length (reverse_text (reversal_of word.now run.now.run)) }
{
    let Some(cut) = run.split() else {
        unreachable!();
    };
    put_head(sink, word)?;
    put_body(sink, run, cut)
}
