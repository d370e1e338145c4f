ghost use Rattle.std.specs.Prelude.{◌≡◌, ◌+◌, ◌≤◌, ◌++◌, length};
ghost use Rattle.std.specs.List.{flat_map};
ghost use Rattle.wb_base.specs.Lines.{line};
ghost use Rattle.wb_base.specs.Streams.{HasCause, Puts};
ghost use Rattle.wb_base.specs.declared.TheConstants.{MAX_CHUNK};
ghost use Rattle.braid_word.specs.declared.TheConstants.{LETTERS_AT_ONCE};
ghost use Rattle.braid_word.specs.Notation.{letter_text, next_text, word_field, word_text};

use crate::LETTERS_AT_ONCE;
use crate::letter::Letter;
use wb_base::{Chunk, Failed, Sink, give_all, put_signed};

/// Gives the text of a letter: its index, behind a minus sign for an inverse.
pub fn put_letter<K: Sink>(sink: &mut K, letter: Letter) -> Result<(), Failed>
    ensures took { Puts (K.taken sink.old) (K.taken sink.new) result (letter_text letter) }
    ensures cause { HasCause (K.faults sink.old) (K.faults sink.new) result }
    ensures waits { K.waiting sink.new ≤ K.waiting sink.old + length (letter_text letter) }
{
    put_signed(sink, letter.negative, u64::from(letter.index))
}

/// Adds the text of a letter behind a space to a chunk: at most 22 bytes.
pub fn push_next_letter(text: &mut Chunk, letter: Letter)
    requires room { length text.old + 22 ≤ MAX_CHUNK }
    ensures text { text.new ≡ text.old ++ next_text letter }
    ensures size { length text.new ≤ length text.old + 22 }
{
    text.push(b" ");
    text.push_signed(letter.negative, u64::from(letter.index));
}

// Gives the texts of a few letters, each behind a space, at once.
fn put_some<K: Sink>(sink: &mut K, letters: &[Letter]) -> Result<(), Failed>
    requires few { length letters.now ≤ LETTERS_AT_ONCE }
    ensures took { Puts (K.taken sink.old) (K.taken sink.new) result (flat_map next_text letters.now) }
    ensures cause { HasCause (K.faults sink.old) (K.faults sink.new) result }
    ensures waits { K.waiting sink.new ≤ K.waiting sink.old + length (flat_map next_text letters.now) }
{
    let mut text = Chunk::new();
    for letter in letters {
        push_next_letter(&mut text, *letter);
    }
    give_all(sink, text.bytes())
}

// Gives the texts of letters, each behind a space.
fn put_letters<K: Sink>(sink: &mut K, letters: &[Letter]) -> Result<(), Failed>
    ensures took { Puts (K.taken sink.old) (K.taken sink.new) result (flat_map next_text letters.now) }
    ensures cause { HasCause (K.faults sink.old) (K.faults sink.new) result }
    ensures waits { K.waiting sink.new ≤ K.waiting sink.old + length (flat_map next_text letters.now) }
{
    let mut put = 0;
    'putting: while put < letters.len() {
        let count = (letters.len() - put).min(LETTERS_AT_ONCE);
        put_some(sink, &letters[put..put + count])?;
        put += count;
    }
    Ok(())
}

/// Gives the strict spelling of a word: its letters with one space between them, and no LF.
pub fn put_word<K: Sink>(sink: &mut K, letters: &[Letter]) -> Result<(), Failed>
    ensures took { Puts (K.taken sink.old) (K.taken sink.new) result (word_text letters.now) }
    ensures cause { HasCause (K.faults sink.old) (K.faults sink.new) result }
    ensures waits { K.waiting sink.new ≤ K.waiting sink.old + length (word_text letters.now) }
{
    match letters {
        [] => Ok(()),
        [first, rest @ ..] => {
            put_letter(sink, *first)?;
            put_letters(sink, rest)
        }
    }
}

// Gives what stands of a word behind its keyword.
fn put_word_field<K: Sink>(sink: &mut K, word: &[Letter]) -> Result<(), Failed>
    ensures took { Puts (K.taken sink.old) (K.taken sink.new) result (word_field word.now) }
    ensures cause { HasCause (K.faults sink.old) (K.faults sink.new) result }
    ensures waits { K.waiting sink.new ≤ K.waiting sink.old + length (word_field word.now) }
{
    match word {
        [] => Ok(()),
        [_, ..] => {
            give_all(sink, b" ")?;
            put_word(sink, word)
        }
    }
}

/// Gives a line of a keyword and a word: the word stands behind a space, in the strict spelling, and an empty
/// word not at all.
pub fn put_word_line<K: Sink>(sink: &mut K, keyword: &[u8], word: &[Letter]) -> Result<(), Failed>
    ensures took { Puts (K.taken sink.old) (K.taken sink.new) result
        (line (keyword.now ++ word_field word.now)) }
    ensures cause { HasCause (K.faults sink.old) (K.faults sink.new) result }
    ensures waits { K.waiting sink.new ≤ K.waiting sink.old
        + length (line (keyword.now ++ word_field word.now)) }
{
    give_all(sink, keyword)?;
    put_word_field(sink, word)?;
    give_all(sink, b"\n")
}
