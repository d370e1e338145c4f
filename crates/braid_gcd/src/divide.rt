ghost use Rattle.std.specs.Prelude.{◌≡◌, ◌≤◌, ◌↔◌, ℕ, Bool, List, Some, None, Err, length, IfOk};
ghost use Rattle.braid_word.specs.Words.{Letter as Signed, IsOn, IsPositiveWord};
ghost use Rattle.braid_word.specs.declared.TheConstants.{MAX_LETTERS};
ghost use Rattle.braid_gcd.specs.NormalWords.{IsAnswerOf};
ghost use Rattle.braid_gcd.specs.Faults.{outside_fault, negative_fault, length_fault};
ghost use Rattle.braid_gcd.specs.declared.TheConstants.{MAX_DIVIDED, MAX_STRANDS};
ghost use Rattle.braid_gcd.specs.declared.error.GcdErr.TheVariants.{Strands, Negative, TooLong};

use crate::common::take_all;
use crate::divisor::CommonDivisor;
use crate::error::GcdErr;
use crate::faults::{length_fault, negative_fault, outside_fault};
use crate::forms::{greedy_list, list_word, normal_word};
use braid_word::Letter;
use std::alloc::{AllocError, Global};

// The greatest common left divisor of two positive words on n strands, and what is left of them behind it.
fn common_divisor(
    alloc: Global,
    u: &[Letter],
    v: &[Letter],
    n: u32,
) -> Result<CommonDivisor, AllocError>
    requires low { 2 ≤ n }
    requires high { n ≤ MAX_STRANDS }
    requires first_on { IsOn n u.now }
    requires second_on { IsOn n v.now }
    requires first_positive { IsPositiveWord u.now }
    requires second_positive { IsPositiveWord v.now }
    requires first_most { length u.now ≤ MAX_DIVIDED }
    requires second_most { length v.now ≤ MAX_DIVIDED }
    ensures { IfOk result (λ c. IsAnswerOf n u.now v.now c.divisor c.left c.right) }
{
    let mut first = greedy_list(alloc, u, n)?;
    let mut second = greedy_list(alloc, v, n)?;
    let letters = take_all(alloc, u, v, &mut first, &mut second)?;
    let divisor = normal_word(alloc, letters.as_slice(), n)?;
    let left = list_word(alloc, first, n)?;
    let right = list_word(alloc, second, n)?;
    Ok(CommonDivisor::of(divisor, left, right))
}

/// The greatest common left divisor of two positive words on n strands, and what is left of them behind it.
///
/// Two words are refused for the first that has a letter whose index is n or more, then for the first that
/// has an inverse letter, then for the first of more than 2,000 letters; the place is that of its first such
/// letter, counted from 1, or what is told is its length. Letters are taken out of the fronts of two greedy
/// lists of simple braids, after Epstein and others, Word Processing in Groups, chapter 9.
pub fn gcd(alloc: Global, u: &[Letter], v: &[Letter], n: u32) -> Result<CommonDivisor, GcdErr>
    requires low { 2 ≤ n }
    requires high { n ≤ MAX_STRANDS }
    requires first { length u.now ≤ MAX_LETTERS }
    requires second { length v.now ≤ MAX_LETTERS }
    ensures answer { IfOk result (λ c. IsAnswerOf n u.now v.now c.divisor c.left c.right) }
    ensures only { (g a b : List Signed) → IsAnswerOf n u.now v.now g a b
        → IfOk result (λ c. (c.divisor ≡ g) × (c.left ≡ a) × (c.right ≡ b)) }
    ensures strands { (second : Bool) → (place : ℕ) → (result ≡ Err (Strands second place))
        ↔ (outside_fault n u.now v.now ≡ Some (second, place)) }
    ensures negative { (second : Bool) → (place : ℕ) → (result ≡ Err (Negative second place))
        ↔ ((outside_fault n u.now v.now ≡ None) × (negative_fault u.now v.now ≡ Some (second, place))) }
    ensures long { (second : Bool) → (count : ℕ) → (result ≡ Err (TooLong second count))
        ↔ ((outside_fault n u.now v.now ≡ None) × (negative_fault u.now v.now ≡ None)
        × (length_fault u.now v.now ≡ Some (second, count))) }
{
    if let Some((second, place)) = outside_fault(u, v, n) {
        return Err(GcdErr::Strands { second, place });
    }
    if let Some((second, place)) = negative_fault(u, v) {
        return Err(GcdErr::Negative { second, place });
    }
    if let Some((second, count)) = length_fault(u, v) {
        return Err(GcdErr::TooLong { second, count });
    }
    Ok(common_divisor(alloc, u, v, n)?)
}
