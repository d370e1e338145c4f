ghost use Rattle.std.specs.Prelude.{◌≡◌};
ghost use Rattle.wb_base.specs.Lines.{lines_of};
ghost use Rattle.braid_word.specs.Words.{first_negative};
ghost use Rattle.wb_command.specs.Inputs.{line_word, one_word, two_positive_words, two_words, two_words_of, unless_negative, word_on};
ghost use Rattle.wb_command.specs.Reading.{Reads, read_fault};

use crate::fault::Fault;
use braid_word::{Word, WordErr, first_negative, first_outside, read_word};
use std::alloc::Global;
use wb_base::lines;

/// Why an input isn't read.
#[derive(Debug, Drop)]
pub enum InputErr {
    /// It has this fault.
    Fault(Fault),
    /// Memory ran out.
    Memory,
}

// Why a word isn't read.
fn input_err(line: u64, error: WordErr) -> InputErr
    ensures { result ≡ read_fault line error }
{
    match error {
        WordErr::BadLetter { place } => InputErr::Fault(Fault::Letters(line, place)),
        WordErr::BadIndex { place } => InputErr::Fault(Fault::Index(line, place)),
        WordErr::TooLong { count } => InputErr::Fault(Fault::Long(line, count)),
        WordErr::Memory => InputErr::Memory,
    }
}

// The word of a line, on so many strands.
fn read_on(alloc: Global, strands: u32, line: u64, text: &[u8]) -> Result<Word, InputErr>
    ensures { Reads result (word_on strands line text.now) }
{
    let word = match read_word(alloc, text) {
        Ok(word) => word,
        Err(error) => return Err(input_err(line, error)),
    };
    match first_outside(word.letters(), strands) {
        None => Ok(word),
        Some(place) => Err(InputErr::Fault(Fault::Strands(line, place as u64 + 1))),
    }
}

// A word of a line, which may have no inverse letter.
fn unless_negative(line: u64, word: Word) -> Result<Word, InputErr>
    ensures { Reads result (unless_negative line word (first_negative word)) }
{
    match first_negative(word.letters()) {
        None => Ok(word),
        Some(place) => Err(InputErr::Fault(Fault::Negative(line, place as u64 + 1))),
    }
}

// The word of a line, on so many strands, without inverse letters where it has to be positive.
fn read_line(
    alloc: Global,
    strands: u32,
    positive: bool,
    line: u64,
    text: &[u8],
) -> Result<Word, InputErr>
    ensures { Reads result (line_word positive strands line text.now) }
{
    let word = read_on(alloc, strands, line, text)?;
    if positive {
        unless_negative(line, word)
    } else {
        Ok(word)
    }
}

/// The word of an input of exactly one line, on so many strands.
pub fn read_one_word(alloc: Global, strands: u32, input: &[u8]) -> Result<Word, InputErr>
    ensures { Reads result (one_word strands input.now) }
{
    let mut lines = lines(input);
    let Some(text) = lines.next() else {
        return Err(InputErr::Fault(Fault::Lines(1)));
    };
    let word = read_on(alloc, strands, 1, text)?;
    match lines.next() {
        None => Ok(word),
        Some(_) => Err(InputErr::Fault(Fault::Lines(2))),
    }
}

// The words of an input of exactly two lines, on so many strands.
fn read_two(
    alloc: Global,
    strands: u32,
    positive: bool,
    input: &[u8],
) -> Result<(Word, Word), InputErr>
    ensures { Reads result (two_words_of (line_word positive strands) (lines_of input.now)) }
{
    let mut lines = lines(input);
    let Some(first) = lines.next() else {
        return Err(InputErr::Fault(Fault::Lines(1)));
    };
    let left = read_line(alloc, strands, positive, 1, first)?;
    let Some(second) = lines.next() else {
        return Err(InputErr::Fault(Fault::Lines(2)));
    };
    let right = read_line(alloc, strands, positive, 2, second)?;
    match lines.next() {
        None => Ok((left, right)),
        Some(_) => Err(InputErr::Fault(Fault::Lines(3))),
    }
}

/// The words of an input of exactly two lines, on so many strands.
pub fn read_two_words(alloc: Global, strands: u32, input: &[u8]) -> Result<(Word, Word), InputErr>
    ensures { Reads result (two_words strands input.now) }
{
    read_two(alloc, strands, false, input)
}

/// The words of an input of exactly two lines, on so many strands and without inverse letters.
pub fn read_two_positive_words(
    alloc: Global,
    strands: u32,
    input: &[u8],
) -> Result<(Word, Word), InputErr>
    ensures { Reads result (two_positive_words strands input.now) }
{
    read_two(alloc, strands, true, input)
}
