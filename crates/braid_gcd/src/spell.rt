ghost use Rattle.std.specs.Prelude.{◌≡◌, ℕ, ◌<◌, ◌≤◌, List, ◌++◌, reverse, length, IfSome, IfNone, OnOk};
ghost use Rattle.braid_word.specs.Words.{Letter as Signed};
ghost use Rattle.perm_braid.specs.Arrangements.{IsOrder, IsLeftDescent};
ghost use Rattle.perm_braid.specs.SimpleWords.{IsWordOf, rising_word, delta_word};
ghost use Rattle.garside_form.specs.NormalForms.{IsProduct, times};
ghost use Rattle.garside_form.specs.FactorLists.{EachOrder};
ghost use Rattle.braid_gcd.specs.declared.TheConstants.{MAX_STRANDS};

use braid_word::Letter;
use perm_braid::Perm;
use std::alloc::AllocError;

// The least left descent.
fn first_descent(p: &Perm) -> Option<u32>
    ensures some { IfSome result (λ i. (1 ≤ i) × (i < length p.now) × IsLeftDescent p.now i) }
    ensures least { IfSome result (λ i. (j : ℕ) → 1 ≤ j → j < i → IsLeftDescent p.now j → ⊥) }
    ensures small { IfSome result (λ i. i < MAX_STRANDS) }
    ensures none { IfNone result ((j : ℕ) → 1 ≤ j → j < length p.now → IsLeftDescent p.now j → ⊥) }
{
    for i in 1..p.strands() {
        if p.is_left_descent(i) {
            return Some(i);
        }
    }
    None
}

// Puts the word of a simple braid behind the others.
fn push_simple(word: &mut Vec<Letter>, braid: Perm) -> Result<(), AllocError>
    requires order { IsOrder (length braid) braid }
    ensures { (w : List Signed) → IsWordOf (length braid) braid w
        → OnOk result (word.new.items ≡ word.old.items ++ w) }
{
    let mut rest = braid;
    while let Some(i) = first_descent(&rest) {
        word.push(Letter::new(i as u16, false))?;
        rest.before(i);
    }
    Ok(())
}

/// Puts the words of the simple braids of a list behind the others; the first of the list stands last in the
/// vector.
pub(crate) fn push_list(word: &mut Vec<Letter>, list: Vec<Perm>) -> Result<(), AllocError>
    ensures { (n : ℕ) → (w : List Signed) → EachOrder n (reverse list.items)
        → IsProduct n (reverse list.items) w → OnOk result (word.new.items ≡ word.old.items ++ w) }
{
    let mut list = list;
    while let Some(braid) = list.pop() {
        push_simple(word, braid)?;
    }
    Ok(())
}

// Puts the generators of the indices from 1 to k behind the others.
fn push_rising(word: &mut Vec<Letter>, k: u32) -> Result<(), AllocError>
    requires { k < MAX_STRANDS }
    ensures { OnOk result (word.new.items ≡ word.old.items ++ rising_word k) }
{
    for i in 1..=k {
        word.push(Letter::new(i as u16, false))?;
    }
    Ok(())
}

// Puts the half turn behind the others: of 4 strands it is `1 2 3 1 2 1`.
fn push_delta(word: &mut Vec<Letter>, n: u32) -> Result<(), AllocError>
    requires { n ≤ MAX_STRANDS }
    ensures { OnOk result (word.new.items ≡ word.old.items ++ delta_word n) }
{
    for k in (0..n).rev() {
        push_rising(word, k)?;
    }
    Ok(())
}

/// Puts the half turn, so many times, behind the others.
pub(crate) fn push_turns(word: &mut Vec<Letter>, n: u32, turns: u32) -> Result<(), AllocError>
    requires { n ≤ MAX_STRANDS }
    ensures { OnOk result (word.new.items ≡ word.old.items ++ times turns (delta_word n)) }
{
    for _ in 0..turns {
        push_delta(word, n)?;
    }
    Ok(())
}
