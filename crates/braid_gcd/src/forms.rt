ghost use Rattle.std.specs.Prelude.{◌≡◌, ℕ, ◌≤◌, List, ◌++◌, replicate, reverse, length, unsigned_abs, IfOk, OnOk};
ghost use Rattle.braid_word.specs.Words.{Letter as Signed, IsOn, IsPositiveWord};
ghost use Rattle.perm_braid.specs.Arrangements.{half_turn};
ghost use Rattle.garside_form.specs.NormalForms.{IsProduct};
ghost use Rattle.garside_form.specs.FactorLists.{EachOrder};
ghost use Rattle.braid_word.specs.declared.TheConstants.{MAX_LETTERS};
ghost use Rattle.braid_gcd.specs.Rounds.{IsListOf, IsSpelledWord};
ghost use Rattle.braid_gcd.specs.declared.TheConstants.{MAX_STRANDS};

use crate::spell::{push_list, push_turns};
use braid_word::Letter;
use garside_form::{NormalForm, normal_on};
use perm_braid::Perm;
use std::alloc::{AllocError, Global};

// The factors of a normal form; the first of them stands last.
fn factors_of(alloc: Global, form: &NormalForm) -> Result<Vec<Perm>, AllocError>
    ensures { IfOk result (λ list. reverse list.items ≡ form.now.factors) }
{
    let mut list = Vec::new(alloc);
    for k in (0..form.factor_count()).rev() {
        let Some(factor) = form.factor_at(k) else {
            unreachable!();
        };
        list.push(factor.copy(alloc)?)?;
    }
    Ok(list)
}

// Puts half turns in front of a list, whose first stands last in the vector.
fn put_turns(alloc: Global, list: &mut Vec<Perm>, n: u32, turns: u32) -> Result<(), AllocError>
    requires low { 2 ≤ n }
    requires high { n ≤ MAX_STRANDS }
    ensures { OnOk result
        (reverse list.new.items ≡ replicate turns (half_turn n) ++ reverse list.old.items) }
{
    for _ in 0..turns {
        list.push(Perm::delta(alloc, n)?)?;
    }
    Ok(())
}

// The size of the power of the half turn.
fn turns_of(form: &NormalForm) -> u32
    ensures { result ≡ unsigned_abs form.now.delta }
{
    form.delta().unsigned_abs()
}

/// A greedy list of a positive word, with the half turns in front; its first stands last in the vector.
pub(crate) fn greedy_list(alloc: Global, word: &[Letter], n: u32) -> Result<Vec<Perm>, AllocError>
    requires low { 2 ≤ n }
    requires high { n ≤ MAX_STRANDS }
    requires most { length word.now ≤ MAX_LETTERS }
    requires on { IsOn n word.now }
    requires positive { IsPositiveWord word.now }
    ensures { IfOk result (λ list. IsListOf n word.now (reverse list.items)) }
{
    let form = normal_on(alloc, word, n)?;
    let mut list = factors_of(alloc, &form)?;
    put_turns(alloc, &mut list, n, turns_of(&form))?;
    Ok(list)
}

/// The word that the normal form of a positive word spells.
pub(crate) fn normal_word(
    alloc: Global,
    letters: &[Letter],
    n: u32,
) -> Result<Vec<Letter>, AllocError>
    requires low { 2 ≤ n }
    requires high { n ≤ MAX_STRANDS }
    requires most { length letters.now ≤ MAX_LETTERS }
    requires on { IsOn n letters.now }
    requires positive { IsPositiveWord letters.now }
    ensures { IfOk result (λ w. IsSpelledWord n letters.now w.items) }
{
    let form = normal_on(alloc, letters, n)?;
    let mut word = Vec::with_capacity(alloc, letters.len())?;
    push_turns(&mut word, n, turns_of(&form))?;
    push_list(&mut word, factors_of(alloc, &form)?)?;
    Ok(word)
}

/// The word that the normal form of the product of a list spells; the first of the list stands last in the
/// vector.
pub(crate) fn list_word(alloc: Global, list: Vec<Perm>, n: u32) -> Result<Vec<Letter>, AllocError>
    requires low { 2 ≤ n }
    requires high { n ≤ MAX_STRANDS }
    requires orders { EachOrder n (reverse list.items) }
    requires most { (w : List Signed) → IsProduct n (reverse list.items) w → length w ≤ MAX_LETTERS }
    ensures { (w : List Signed) → IsProduct n (reverse list.items) w
        → IfOk result (λ word. IsSpelledWord n w word.items) }
{
    let mut letters = Vec::new(alloc);
    push_list(&mut letters, list)?;
    normal_word(alloc, letters.as_slice(), n)
}
