ghost use Rattle.std.specs.Prelude.{◌≡◌, ◌<◌, ◌+◌, ◌==◌, List, [], ◌∷◌, ◌++◌, take, length, Ok, IfOk, SomeIff, OnOk};
ghost use Rattle.std.specs.List.{list_all, find};
ghost use Rattle.std.specs.Char.{is_ascii_digit};
ghost use Rattle.std.specs.Str.Parse.{digits_value, AllDigits};
ghost use Rattle.braid_word.specs.Words.{Letter as Signed};
ghost use Rattle.braid_word.specs.NumberNotation.{has_minus, without_minus, is_numeral, letter_of};
ghost use Rattle.braid_word.specs.LetterNotation.{first_byte, is_lettered, letter_of_byte};
ghost use Rattle.braid_word.specs.Notation.{Gives, IsReadable, field_word, is_piece, letters_word_of, not_too_long, number_word_of, strict_word_of, word_by, word_of, word_text};
ghost use Rattle.braid_word.specs.declared.reader.WordErr.TheVariants.{Memory};

use crate::letter::Letter;
use crate::word::Word;
use crate::{MAX_INDEX, MAX_LETTERS};
use std::alloc::{AllocError, Global};
use thiserror::Error;
use wb_base::is_canonical;

/// Why a line is no word.
#[derive(Debug, Drop, Error)]
pub enum WordErr {
    /// A piece that is no letter begins at this place, counted in bytes from 1.
    #[error("no letter at byte {place}")]
    BadLetter { place: u64 },
    /// A number that is 0 or above the greatest index begins at this place, counted in bytes from 1.
    #[error("an index out of range at byte {place}")]
    BadIndex { place: u64 },
    /// Each piece is a letter, and there are this many, which is too many.
    #[error("{count} letters")]
    TooLong { count: u64 },
    /// Memory ran out.
    #[error("out of memory")]
    Memory,
}

impl From<AllocError> for WordErr {
    ghost from_gives = { λ _ e. e ≡ Memory };

    fn from(_error: AllocError) -> WordErr {
        WordErr::Memory
    }
}

// Whether a minus sign stands in front, and what stands behind it.
fn split_sign(piece: &[u8]) -> (bool, &[u8])
    ensures sign { result.0 ≡ has_minus piece.now }
    ensures digits { result.1.now ≡ without_minus piece.now }
{
    match piece {
        [b'-', digits @ ..] => (true, digits),
        _ => (false, piece),
    }
}

// Whether all bytes are digits.
fn are_digits(bytes: &[u8]) -> bool
    ensures { result ≡ list_all is_ascii_digit bytes.now }
{
    bytes.iter().all(|byte| byte.is_ascii_digit())
}

// Whether some bytes are the text of a number.
fn is_numeral(bytes: &[u8]) -> bool
    ensures { result ≡ is_numeral bytes.now }
{
    are_digits(bytes) && is_canonical(bytes)
}

// The index that some digits write, where it is one of a letter that may be read.
fn index_of(digits: &[u8]) -> Option<u16>
    requires { AllDigits 10 digits.now }
    ensures { SomeIff result ((0 < digits_value 10 digits.now) × (digits_value 10 digits.now < MAX_INDEX + 1))
        (digits_value 10 digits.now) }
{
    let mut index = 0;
    for byte in digits {
        index = 10 * index + u16::from(byte.saturating_sub(b'0'));
        if index > MAX_INDEX {
            return None;
        }
    }
    (index > 0).then_some(index)
}

// The letter that a piece is, which begins at this place.
fn read_letter(piece: &[u8], place: u64) -> Result<Letter, WordErr>
    ensures { result ≡ letter_of (record { place = place; bytes = piece.now }) }
{
    let (negative, digits) = split_sign(piece);
    if !is_numeral(digits) {
        return Err(WordErr::BadLetter { place });
    }
    match index_of(digits) {
        Some(index) => Ok(Letter { index, negative }),
        None => Err(WordErr::BadIndex { place }),
    }
}

// Puts a letter at the end, unless there are as many already as a word may have: letters that are the
// start of a word stay the start of it.
fn keep(letters: &mut Vec<Letter>, letter: Letter) -> Result<(), AllocError>
    ensures { OnOk result ((w : List Signed)
        → letters.old.items ≡ take MAX_LETTERS w
        → letters.new.items ≡ take MAX_LETTERS (w ++ letter ∷ [])) }
{
    if letters.len() < MAX_LETTERS {
        letters.push(letter)?;
    }
    Ok(())
}

// The word of all letters that were read and counted, of which these were kept.
fn finish(letters: Vec<Letter>, count: u64) -> Result<Word, WordErr>
    ensures { (w : List Signed)
        → letters.items ≡ take MAX_LETTERS w
        → count ≡ length w
        → Gives result (not_too_long (Ok w)) }
{
    if count > MAX_LETTERS as u64 {
        return Err(WordErr::TooLong { count });
    }
    Ok(Word::of(letters))
}

// Whether a part is to be a letter: each in a strict reading, else one that isn't empty.
fn is_piece(part: &[u8], strict: bool) -> bool
    ensures { result ≡ is_piece strict part.now }
{
    strict || !part.is_empty()
}

// Reads the parts of a line between single spaces, each a letter. An empty part is left out, or is no
// letter where the reading is strict.
fn read_parts(alloc: Global, bytes: &[u8], strict: bool) -> Result<Word, WordErr>
    ensures { Gives result (word_by strict bytes.now) }
{
    let mut letters = Vec::new(alloc);
    let mut count: u64 = 0;
    let mut place: u64 = 1;
    for part in bytes.split(|byte| *byte == b' ') {
        if is_piece(part, strict) {
            let letter = read_letter(part, place)?;
            keep(&mut letters, letter)?;
            count += 1;
        }
        place += part.len() as u64 + 1;
    }
    finish(letters, count)
}

// The letter that a byte is, which stands at this place.
fn letter_of_byte(byte: u8, place: u64) -> Result<Letter, WordErr>
    ensures { result ≡ letter_of_byte place byte }
{
    let (first, negative) = match byte {
        b'a'..=b'y' => (b'a', false),
        b'A'..=b'Y' => (b'A', true),
        _ => return Err(WordErr::BadLetter { place }),
    };
    let index = u16::from(byte - first) + 1;
    Ok(Letter { index, negative })
}

// Reads the bytes of a line but for its spaces, each a letter.
fn read_bytes(alloc: Global, bytes: &[u8]) -> Result<Word, WordErr>
    ensures { Gives result (letters_word_of bytes.now) }
{
    let mut letters = Vec::new(alloc);
    let mut count: u64 = 0;
    let mut place: u64 = 0;
    for byte in bytes {
        place += 1;
        if *byte != b' ' {
            let letter = letter_of_byte(*byte, place)?;
            keep(&mut letters, letter)?;
            count += 1;
        }
    }
    finish(letters, count)
}

// The first byte that isn't a space.
fn first_byte(bytes: &[u8]) -> Option<u8>
    ensures { result ≡ first_byte bytes.now }
{
    bytes.iter().copied().find(|byte| *byte != b' ')
}

// Whether a line is in letter notation.
fn is_lettered(bytes: &[u8]) -> bool
    ensures { result ≡ is_lettered bytes.now }
{
    match first_byte(bytes) {
        Some(byte) => byte.is_ascii_alphabetic(),
        None => false,
    }
}

// Reads a line in either notation.
#[tactic(auto, unfolding(crate::specs::Notation::word_of, crate::specs::Notation::number_word_of, crate::specs::Notation::word_by))]
fn read_either(alloc: Global, bytes: &[u8]) -> Result<Word, WordErr>
    ensures { Gives result (word_of bytes.now) }
{
    if is_lettered(bytes) {
        read_bytes(alloc, bytes)
    } else {
        read_parts(alloc, bytes, false)
    }
}

// Reads a line in the strict spelling.
fn read_strictly(alloc: Global, bytes: &[u8]) -> Result<Word, WordErr>
    ensures { Gives result (strict_word_of bytes.now) }
{
    if bytes.is_empty() {
        return Ok(Word::new(alloc));
    }
    read_parts(alloc, bytes, true)
}

/// Reads a line in number notation, as `1 -2`, or in letter notation, as `aB`: the latter where its first
/// byte that isn't a space is one of `A` to `Z` or `a` to `z`.
///
/// A piece is a longest run of bytes that aren't spaces, and in letter notation one such byte, where `a` to
/// `y` are the indices 1 to 25 and `A` to `Y` their inverses. The first piece that is no letter, or has an
/// index of 0 or above 255, is the answer; without one, more than 100,000 pieces are. A line of spaces is
/// the empty word.
pub fn read_word(alloc: Global, bytes: &[u8]) -> Result<Word, WordErr>
    // What is read has no more letters and no greater index than may be.
    ensures readable { IfOk result IsReadable }

    // A word's spelling is read as that word, unless memory runs out.
    ensures only { (w : List Signed) → IsReadable w → bytes.now ≡ word_text w → Gives result (Ok w) }

    // Why it is refused.
    ensures exact { Gives result (word_of bytes.now) }
{
    read_either(alloc, bytes)
}

/// Reads a line in the strict spelling: numbers with one space between them, and none elsewhere.
///
/// No bytes are the empty word. The refusals are those of [`read_word`] for numbers, but that an empty piece
/// is no letter: it is refused at the place where it would begin.
pub fn read_strict_word(alloc: Global, bytes: &[u8]) -> Result<Word, WordErr>
    // What is read is spelled so.
    ensures text { IfOk result (λ w. (bytes.now ≡ word_text w) × IsReadable w) }

    // What is spelled so is read, unless memory runs out.
    ensures only { (w : List Signed) → IsReadable w → bytes.now ≡ word_text w → Gives result (Ok w) }

    // Why it is refused.
    ensures exact { Gives result (strict_word_of bytes.now) }
{
    read_strictly(alloc, bytes)
}

/// Reads what stands behind a keyword: nothing is the empty word, and a space is followed by another word in the
/// strict spelling.
///
/// The refusals are those of [`read_strict_word`], with places behind the space; nothing there is no letter.
pub fn read_word_field(alloc: Global, behind: &[u8]) -> Result<Word, WordErr>
    ensures { Gives result (field_word behind.now) }
{
    match behind {
        [] => Ok(Word::new(alloc)),
        [_] => Err(WordErr::BadLetter { place: 1 }),
        [_, bytes @ ..] => read_strict_word(alloc, bytes),
    }
}
