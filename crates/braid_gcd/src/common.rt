ghost use Rattle.std.specs.Prelude.{◌≡◌, ℕ, ◌<◌, ◌≤◌, Bool, false, List, [], ◌∷◌, ◌++◌, reverse, length, IsTrue, IfSome, IfNone, IfOk, OnOk};
ghost use Rattle.braid_word.specs.Words.{Letter as Signed, IsPositiveWord};
ghost use Rattle.perm_braid.specs.Arrangements.{IsOrder, IsLeftDescent};
ghost use Rattle.braid_gcd.specs.Rounds.{NoneCommon, IsTakenOut, IsDivided, ShareNone};
ghost use Rattle.braid_gcd.specs.declared.TheConstants.{MAX_STRANDS};

use crate::pass::put_in;
use braid_word::Letter;
use perm_braid::Perm;
use std::alloc::{AllocError, Global};

// The least index that is a left descent of both.
fn common_descent(p: &Perm, q: &Perm) -> Option<u32>
    requires equal { length p.now ≡ length q.now }
    ensures some { IfSome result
        (λ i. (1 ≤ i) × (i < length p.now) × IsLeftDescent p.now i × IsLeftDescent q.now i) }
    ensures small { IfSome result (λ i. i < MAX_STRANDS) }
    ensures none { IfNone result (NoneCommon (length p.now) p.now q.now) }
{
    let n = p.strands();
    for i in 1..n {
        if p.is_left_descent(i) && q.is_left_descent(i) {
            return Some(i);
        }
    }
    None
}

// Takes letters out of the front of both until they have none in common, puts them behind the divisor, and
// answers whether there was one.
fn take_common(
    first: &mut Perm,
    second: &mut Perm,
    divisor: &mut Vec<Letter>,
) -> Result<bool, AllocError>
    requires first { IsOrder (length first.old) first.old }
    requires second { IsOrder (length first.old) second.old }
    ensures taken { (n : ℕ) → (u v : List Signed) → (ps qs : List (List ℕ))
        → IsTakenOut n u v divisor.old.items (first.old ∷ ps) (second.old ∷ qs)
        → OnOk result (IsTakenOut n u v divisor.new.items (first.new ∷ ps) (second.new ∷ qs)) }
    ensures none { OnOk result (NoneCommon (length first.old) first.new second.new) }
    ensures longer { IfOk result (λ took. IsTrue took → length divisor.old.items < length divisor.new.items) }
    ensures same { IfOk result
        (λ took. took ≡ false → (first.new ≡ first.old) × (second.new ≡ second.old)) }
{
    let mut found = false;
    while let Some(i) = common_descent(first, second) {
        divisor.push(Letter::new(i as u16, false))?;
        first.before(i);
        second.before(i);
        found = true;
    }
    Ok(found)
}

// One round: letters are taken out of the first simple braids of both lists, and what is left of these is put
// in front again. The first of a list stands last in its vector; `stack` is empty before and after it.
fn take_round(
    first: &mut Vec<Perm>,
    second: &mut Vec<Perm>,
    divisor: &mut Vec<Letter>,
    stack: &mut Vec<Perm>,
) -> Result<bool, AllocError>
    requires empty { stack.old.items ≡ [] }
    requires divided { (n : ℕ) × (u : List Signed) × (v : List Signed)
        × IsDivided n u v divisor.old.items (reverse first.old.items) (reverse second.old.items) }
    ensures divided { (n : ℕ) → (u v : List Signed)
        → IsDivided n u v divisor.old.items (reverse first.old.items) (reverse second.old.items)
        → OnOk result
        (IsDivided n u v divisor.new.items (reverse first.new.items) (reverse second.new.items)) }
    ensures none { (n : ℕ) → (u v : List Signed)
        → IsDivided n u v divisor.old.items (reverse first.old.items) (reverse second.old.items)
        → IfOk result
        (λ took. took ≡ false → ShareNone n (reverse first.new.items) (reverse second.new.items)) }
    ensures longer { IfOk result (λ took. IsTrue took → length divisor.old.items < length divisor.new.items) }
    ensures empty { OnOk result (stack.new.items ≡ []) }
{
    let Some(mut p) = first.pop() else {
        return Ok(false);
    };
    let Some(mut q) = second.pop() else {
        first.push(p)?;
        return Ok(false);
    };
    let took = take_common(&mut p, &mut q, divisor)?;
    put_in(first, p, stack)?;
    put_in(second, q, stack)?;
    Ok(took)
}

/// Takes all common letters out of the front of two greedy lists, and gives them: what is left of the lists
/// shares none. The first of a list stands last in its vector; `u` and `v` are words of the lists.
pub(crate) fn take_all(
    alloc: Global,
    u: &[Letter],
    v: &[Letter],
    first: &mut Vec<Perm>,
    second: &mut Vec<Perm>,
) -> Result<Vec<Letter>, AllocError>
    requires positive { IsPositiveWord u.now }
    requires divided { (n : ℕ)
        × IsDivided n u.now v.now [] (reverse first.old.items) (reverse second.old.items) }
    ensures divided { (n : ℕ)
        → IsDivided n u.now v.now [] (reverse first.old.items) (reverse second.old.items)
        → IfOk result
        (λ g. IsDivided n u.now v.now g.items (reverse first.new.items) (reverse second.new.items)) }
    ensures none { (n : ℕ)
        → IsDivided n u.now v.now [] (reverse first.old.items) (reverse second.old.items)
        → OnOk result (ShareNone n (reverse first.new.items) (reverse second.new.items)) }
{
    // The divisor has no more letters than each word.
    let mut divisor = Vec::with_capacity(alloc, u.len().min(v.len()))?;
    let mut stack = Vec::new(alloc);
    'rounds: loop {
        let took = take_round(first, second, &mut divisor, &mut stack)?;
        if !took {
            return Ok(divisor);
        }
    }
}
