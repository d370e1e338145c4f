ghost use Rattle.std.specs.Prelude.{◌≡◌, ◌<◌, ◌≤◌, length, IfSome, IfNone};
ghost use Rattle.braid_word.specs.Words.{IsOn, IsPositiveWord};
ghost use Rattle.braid_word.specs.declared.TheConstants.{MAX_LETTERS};
ghost use Rattle.braid_gcd.specs.Faults.{fault_in, outside_fault, negative_fault, length_fault};

use crate::MAX_DIVIDED;
use braid_word::{Letter, first_negative, first_outside};

// Which of two words has a letter at a place counted from 0, and this place counted from 1.
fn fault_in(first: Option<usize>, second: Option<usize>) -> Option<(bool, u32)>
    requires first { IfSome first (λ k. k < MAX_LETTERS) }
    requires second { IfSome second (λ k. k < MAX_LETTERS) }
    ensures { result ≡ fault_in first second }
{
    match (first, second) {
        (Some(k), _) => Some((false, k as u32 + 1)),
        (None, Some(k)) => Some((true, k as u32 + 1)),
        (None, None) => None,
    }
}

/// The first letter that isn't on n strands: whether it is one of `v`, and its place, counted from 1.
pub(crate) fn outside_fault(u: &[Letter], v: &[Letter], n: u32) -> Option<(bool, u32)>
    requires first { length u.now ≤ MAX_LETTERS }
    requires second { length v.now ≤ MAX_LETTERS }
    ensures place { result ≡ outside_fault n u.now v.now }
    ensures first { IfNone result (IsOn n u.now) }
    ensures second { IfNone result (IsOn n v.now) }
{
    fault_in(first_outside(u, n), first_outside(v, n))
}

/// The first inverse letter: whether it is one of `v`, and its place, counted from 1.
pub(crate) fn negative_fault(u: &[Letter], v: &[Letter]) -> Option<(bool, u32)>
    requires first { length u.now ≤ MAX_LETTERS }
    requires second { length v.now ≤ MAX_LETTERS }
    ensures place { result ≡ negative_fault u.now v.now }
    ensures first { IfNone result (IsPositiveWord u.now) }
    ensures second { IfNone result (IsPositiveWord v.now) }
{
    fault_in(first_negative(u), first_negative(v))
}

/// The first word of more letters than a common divisor is found of: whether it is `v`, and its length.
pub(crate) fn length_fault(u: &[Letter], v: &[Letter]) -> Option<(bool, u32)>
    requires first { length u.now ≤ MAX_LETTERS }
    requires second { length v.now ≤ MAX_LETTERS }
    ensures length { result ≡ length_fault u.now v.now }
    ensures first { IfNone result (length u.now ≤ MAX_DIVIDED) }
    ensures second { IfNone result (length v.now ≤ MAX_DIVIDED) }
{
    if MAX_DIVIDED < u.len() {
        Some((false, u.len() as u32))
    } else if MAX_DIVIDED < v.len() {
        Some((true, v.len() as u32))
    } else {
        None
    }
}
