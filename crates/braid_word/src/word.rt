ghost use Rattle.std.specs.Prelude.{◌≡◌, ◌<◌, [], ◌∷◌, ◌++◌, length, IfOk, OnOk, OnErr, IfSome, IfNone};
ghost use Rattle.braid_word.specs.Words.{inverse, quotient, IsOn, IsPositiveWord, first_outside, first_negative};

use crate::letter::Letter;
use std::alloc::{AllocError, Global};
use std::marker::Model;

/// A braid word, from its first letter to its last.
#[derive(Debug, Drop)]
pub struct Word {
    letters: Vec<Letter>,
}

impl Model for Word {
    ghost use Rattle.std.specs.Prelude.{List};
    ghost use Rattle.braid_word.specs.Words.{Letter as Signed};

    ghost Value = { List Signed };

    ghost view = { λ w. w.letters.items };
}

impl Word {
    /// The empty word.
    pub fn new(alloc: Global) -> Word
        ensures { result ≡ [] }
    {
        Word {
            letters: Vec::new(alloc),
        }
    }

    /// The word of these letters.
    pub fn from_letters(alloc: Global, letters: &[Letter]) -> Result<Word, AllocError>
        ensures { IfOk result (λ w. w ≡ letters.now) }
    {
        Ok(Word {
            letters: Vec::from_slice(alloc, letters)?,
        })
    }

    /// The word of these letters, which keeps their memory.
    pub fn of(letters: Vec<Letter>) -> Word
        ensures { result ≡ letters.items }
    {
        Word { letters }
    }

    /// Puts a letter at the end.
    pub fn push(&mut self, letter: Letter) -> Result<(), AllocError>
        ensures ok { OnOk result (self.new ≡ self.old ++ letter ∷ []) }
        ensures err { OnErr result (self.new ≡ self.old) }
    {
        self.letters.push(letter)?;
        Ok(())
    }

    /// The letters, from the first to the last.
    pub fn letters(&self) -> &[Letter]
        ensures { result.now ≡ self.now }
    {
        &self.letters
    }

    /// The letters, with the word's own memory.
    pub fn into_letters(self) -> Vec<Letter>
        ensures { result.items ≡ self }
    {
        self.letters
    }
}

/// The inverse of a word: its letters from the last to the first, each with its sign turned.
pub fn inverse(alloc: Global, u: &[Letter]) -> Result<Word, AllocError>
    ensures { IfOk result (λ w. w ≡ inverse u.now) }
{
    let mut letters = Vec::with_capacity(alloc, u.len())?;
    for k in (0..u.len()).rev() {
        letters.push(u[k].opposite())?;
    }
    Ok(Word { letters })
}

/// The word of u^-1 v: the inverse of `u`, and then `v`.
pub fn quotient(alloc: Global, u: &[Letter], v: &[Letter]) -> Result<Word, AllocError>
    ensures { IfOk result (λ w. w ≡ quotient u.now v.now) }
{
    let Word { mut letters } = inverse(alloc, u)?;
    letters.extend_from_slice(v)?;
    Ok(Word { letters })
}

/// The place, counted from 0, of the first letter that isn't on so many strands: its index is their number or
/// more.
pub fn first_outside(letters: &[Letter], strands: u32) -> Option<usize>
    ensures place { result ≡ first_outside strands letters.now }
    ensures within { IfSome result (λ k. k < length letters.now) }
    ensures on { IfNone result (IsOn strands letters.now) }
{
    for k in 0..letters.len() {
        let letter = letters[k];
        if strands <= u32::from(letter.index()) {
            return Some(k);
        }
    }
    None
}

/// The place, counted from 0, of the first inverse letter.
pub fn first_negative(letters: &[Letter]) -> Option<usize>
    ensures place { result ≡ first_negative letters.now }
    ensures within { IfSome result (λ k. k < length letters.now) }
    ensures positive { IfNone result (IsPositiveWord letters.now) }
{
    for k in 0..letters.len() {
        let letter = letters[k];
        if letter.negative {
            return Some(k);
        }
    }
    None
}
