ghost use Rattle.std.specs.Prelude.{◌≡◌, ◌-◌, [], ◌∷◌, ◌++◌, length, take, IsTrue, IsFalse, IfOk, OnOk, OnErr};
ghost use Rattle.free_word.specs.FreeWords.{opposite, inverse, product, IsReduced, IsReducedForm};

use crate::generator::Gen;
use std::alloc::{AllocError, Global};
use std::marker::Model;

/// An element of a free group, as its reduced word, from the first generator to the last.
#[derive(Debug, Drop)]
pub struct FreeWord {
    letters: Vec<Gen>,
}

impl Model for FreeWord {
    ghost use Rattle.std.specs.Prelude.{List};
    ghost use Rattle.free_word.specs.FreeWords.{Gen as Generator, IsReduced};

    ghost Value = { List Generator };

    ghost view = { λ w. w.letters.items };

    ghost invariant = { λ w. IsReduced w.letters.items };
}

// Whether the last generator is the inverse of `x`.
fn ends_in_inverse(letters: &[Gen], x: Gen) -> bool
    ensures cut { IsTrue result → letters.now ≡ take (length letters.now - 1) letters.now ++ opposite x ∷ [] }
    ensures kept { IsFalse result → IsReduced letters.now → IsReduced (letters.now ++ x ∷ []) }
{
    match letters.last() {
        Some(last) => *last == x.opposite(),
        None => false,
    }
}

// Puts a generator at the end, or takes the last one away where that is its inverse.
fn put_last(letters: &mut Vec<Gen>, x: Gen) -> Result<(), AllocError>
    requires { IsReduced letters.old.items }
    ensures ok { OnOk result (letters.new.items ≡ product letters.old.items (x ∷ [])) }
    ensures err { OnErr result (letters.new.items ≡ letters.old.items) }
    ensures reduced { IsReduced letters.new.items }
{
    if ends_in_inverse(letters, x) {
        let _ = letters.pop();
        return Ok(());
    }
    letters.push(x)?;
    Ok(())
}

impl FreeWord {
    /// The element of the empty word, which may be given room for this many generators.
    pub fn with_capacity(alloc: Global, room: usize) -> Result<FreeWord, AllocError>
        ensures { IfOk result (λ f. f ≡ []) }
    {
        Ok(FreeWord {
            letters: Vec::with_capacity(alloc, room)?,
        })
    }

    /// The element of one generator, or of its inverse.
    pub fn single(alloc: Global, x: Gen) -> Result<FreeWord, AllocError>
        ensures { IfOk result (λ f. f ≡ x ∷ []) }
    {
        let mut letters = Vec::with_capacity(alloc, 1)?;
        letters.push(x)?;
        Ok(FreeWord { letters })
    }

    /// The same element.
    pub fn copy(&self, alloc: Global) -> Result<FreeWord, AllocError>
        ensures value { IfOk result (λ f. f ≡ self.now) }
        ensures reduced { IfOk result (λ f. IsReduced f) }
    {
        Ok(FreeWord {
            letters: Vec::from_slice(alloc, &self.letters)?,
        })
    }

    /// Multiplies by a generator, or by its inverse, from the right. A refused call changes nothing.
    pub fn push(&mut self, x: Gen) -> Result<(), AllocError>
        ensures ok { OnOk result (self.new ≡ product self.old (x ∷ [])) }
        ensures err { OnErr result (self.new ≡ self.old) }
    {
        put_last(&mut self.letters, x)
    }

    /// The reduced word, from the first generator to the last.
    pub fn letters(&self) -> &[Gen]
        ensures value { result.now ≡ self.now }
        ensures reduced { IsReduced result.now }
    {
        &self.letters
    }
}

/// The product of two elements: the reduced form of the one word in front of the other.
pub fn product(alloc: Global, a: &FreeWord, b: &FreeWord) -> Result<FreeWord, AllocError>
    ensures value { IfOk result (λ f. f ≡ product a.now b.now) }
    ensures form { IfOk result (λ f. IsReducedForm (a.now ++ b.now) f) }
{
    let mut word = a.copy(alloc)?;
    for x in b.letters() {
        word.push(*x)?;
    }
    Ok(word)
}

/// The inverse of an element.
pub fn inverse_of(alloc: Global, a: &FreeWord) -> Result<FreeWord, AllocError>
    ensures { IfOk result (λ f. f ≡ inverse a.now) }
{
    let word = a.letters();
    let mut letters = Vec::with_capacity(alloc, word.len())?;
    for k in (0..word.len()).rev() {
        letters.push(word[k].opposite())?;
    }
    Ok(FreeWord { letters })
}
