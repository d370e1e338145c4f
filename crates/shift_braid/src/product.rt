ghost use Rattle.std.specs.Prelude.{◌≡◌, ◌+◌, ◌≤◌, ◌<◌, ◌⊎◌, ◌++◌, true, false, length, Err, IfOk, OnOk};
ghost use Rattle.braid_word.specs.Words.{letter, inverse, shift, EachLetter, IsOn};
ghost use Rattle.braid_word.specs.Order.{IsLess};
ghost use Rattle.braid_word.specs.declared.TheConstants.{MAX_INDEX, MAX_LETTERS};
ghost use Rattle.shift_braid.specs.Bracket.{bracket, HasIndexFrom};
ghost use Rattle.shift_braid.specs.declared.product.BracketErr.TheVariants.{TooLong, Index, Memory};

use braid_word::{Letter, MAX_INDEX, MAX_LETTERS, Word};
use std::alloc::{AllocError, Global};
use thiserror::Error;

/// Why there is no bracket.
#[derive(Clone, Copy, Debug, PartialEq, Eq, Error)]
pub enum BracketErr {
    /// It would have more than 100,000 letters.
    #[error("a bracket is too long")]
    TooLong,
    /// An index of one of the two words is above 254, and the bracket wouldn't be too long.
    #[error("an index is too high")]
    Index,
    /// Memory ran out.
    #[error("out of memory")]
    Memory,
}

impl From<AllocError> for BracketErr {
    ghost from_gives = { λ _ e. e ≡ Memory };

    fn from(_error: AllocError) -> BracketErr {
        BracketErr::Memory
    }
}

// A letter with 1 added to its index.
fn raised(x: Letter) -> Letter
    requires { x.index < MAX_INDEX }
    ensures { result ≡ letter (x.index + 1) x.negative }
{
    Letter::new(x.index + 1, x.negative)
}

// Whether no index is above 254.
fn is_low(word: &[Letter]) -> bool
    ensures low { result ≡ true → IsOn MAX_INDEX word.now }
    ensures high { result ≡ false → HasIndexFrom MAX_INDEX word.now }
{
    for letter in word {
        if letter.index >= MAX_INDEX {
            return false;
        }
    }
    true
}

// Puts a shifted word at the end.
fn push_shifted(letters: &mut Vec<Letter>, word: &[Letter]) -> Result<(), AllocError>
    requires { EachLetter (λ x. x.index < MAX_INDEX) word.now }
    ensures { OnOk result (letters.new.items ≡ letters.old.items ++ shift word.now) }
{
    for letter in word {
        letters.push(raised(*letter))?;
    }
    Ok(())
}

// Puts the inverse of a shifted word at the end.
fn push_shifted_inverse(letters: &mut Vec<Letter>, word: &[Letter]) -> Result<(), AllocError>
    requires { EachLetter (λ x. x.index < MAX_INDEX) word.now }
    ensures { OnOk result (letters.new.items ≡ letters.old.items ++ inverse (shift word.now)) }
{
    for k in (0..word.len()).rev() {
        letters.push(raised(word[k]).opposite())?;
    }
    Ok(())
}

/// A word with 1 added to each index, of which none may be above 254.
pub fn shift(alloc: Global, word: &[Letter]) -> Result<Word, AllocError>
    requires { EachLetter (λ x. x.index < MAX_INDEX) word.now }
    ensures { IfOk result (λ w. w ≡ shift word.now) }
{
    let mut letters = Vec::with_capacity(alloc, word.len())?;
    push_shifted(&mut letters, word)?;
    Ok(Word::of(letters))
}

// Puts the bracket of two words at the end.
fn push_bracket(letters: &mut Vec<Letter>, a: &[Letter], b: &[Letter]) -> Result<(), AllocError>
    requires left { IsOn MAX_INDEX a.now }
    requires right { IsOn MAX_INDEX b.now }
    ensures { OnOk result (letters.new.items ≡ letters.old.items ++ bracket a.now b.now) }
{
    letters.extend_from_slice(a)?;
    push_shifted(letters, b)?;
    letters.push(Letter::new(1, false))?;
    push_shifted_inverse(letters, a)
}

/// The bracket of two words, `a sh(b) s_1 sh(a)^-1`, where `sh` adds 1 to each index.
///
/// It stands for the product of two braids that is left-distributive. After Dehornoy, Braid groups and
/// left distributive operations.
pub fn bracket(alloc: Global, a: &[Letter], b: &[Letter]) -> Result<Word, BracketErr>
    requires left { length a.now ≤ MAX_LETTERS }
    requires right { length b.now ≤ MAX_LETTERS }
    ensures word { IfOk result (λ w. w ≡ bracket a.now b.now) }
    ensures less { IfOk result (λ w. IsLess a.now w) }

    // Where there is a bracket it isn't too long, and no index of the two words is above 254.
    ensures short { IfOk result (λ w. length w ≤ MAX_LETTERS) }
    ensures low { IfOk result (λ _. IsOn MAX_INDEX a.now × IsOn MAX_INDEX b.now) }
    ensures too_long { result ≡ Err TooLong → MAX_LETTERS < length (bracket a.now b.now) }
    ensures index { result ≡ Err Index
        → (length (bracket a.now b.now) ≤ MAX_LETTERS)
        × (HasIndexFrom MAX_INDEX a.now ⊎ HasIndexFrom MAX_INDEX b.now) }
{
    let length = 2 * a.len() + b.len() + 1;
    if length > MAX_LETTERS {
        return Err(BracketErr::TooLong);
    }
    if !is_low(a) || !is_low(b) {
        return Err(BracketErr::Index);
    }
    let mut letters = Vec::with_capacity(alloc, length)?;
    push_bracket(&mut letters, a, b)?;
    Ok(Word::of(letters))
}
