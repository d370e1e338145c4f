ghost use Rattle.std.specs.Prelude.{◌≡◌, ◌+◌, ◌-◌, ◌<◌, ◌≤◌, ◌↔◌, ℕ, pos, negsuc, length, IfOk, OnOk, Some, Err};
ghost use Rattle.std.specs.Option.{option_map};
ghost use Rattle.braid_word.specs.Words.{IsOn, first_outside};
ghost use Rattle.garside_form.specs.NormalForms.{Form, IsFormOf};
ghost use Rattle.garside_form.specs.declared.error.NormalErr.TheVariants.{Strands};

use crate::error::NormalErr;
use crate::form::NormalForm;
use crate::letters::take_letters;
use crate::lists::turn_factors;
use braid_word::{Letter, first_outside};
use std::alloc::{AllocError, Global};

// The first number less the second.
fn difference(a: u32, b: u32) -> i32
    requires first { a ≤ 100000 }
    requires second { b ≤ 100000 }
    ensures up { b ≤ a → result ≡ pos (a - b) }
    ensures down { a < b → result ≡ negsuc (b - a - 1) }
{
    if b <= a {
        (a - b) as i32
    } else {
        -((b - a) as i32)
    }
}

/// The normal form of a word that is on n strands.
pub fn normal_on(alloc: Global, word: &[Letter], n: u32) -> Result<NormalForm, AllocError>
    requires low { 2 ≤ n }
    requires high { n ≤ 64 }
    requires most { length word.now ≤ 100000 }
    requires on { IsOn n word.now }
    ensures strands { IfOk result (λ f. f.strands ≡ n) }
    ensures form { IfOk result (λ f. IsFormOf f word.now) }
{
    let mut factors = Vec::new(alloc);
    let turns = take_letters(alloc, word, n, &mut factors)?;
    turn_factors(&mut factors, turns.odd);
    Ok(NormalForm::of(n, difference(turns.made, turns.inverse), factors))
}

/// The normal form of a word on n strands.
///
/// It is refused with the place, counted from 1, of the first letter whose index is n or more, exactly where
/// there is one. The simple braids of the letters are taken in one by one, after Epstein and others, Word
/// Processing in Groups, chapter 9.
pub fn normal(alloc: Global, word: &[Letter], n: u32) -> Result<NormalForm, NormalErr>
    requires low { 2 ≤ n }
    requires high { n ≤ 64 }
    requires most { length word.now ≤ 100000 }
    ensures strands { IfOk result (λ f. f.strands ≡ n) }
    ensures form { IfOk result (λ f. IsFormOf f word.now) }
    ensures only { IfOk result (λ f. (g : Form) → g.strands ≡ n → IsFormOf g word.now → g ≡ f) }
    ensures on { OnOk result (IsOn n word.now) }
    ensures refused { (place : ℕ) → (result ≡ Err (Strands place))
        ↔ (option_map (λ k. k + 1) (first_outside n word.now) ≡ Some place) }
{
    if let Some(k) = first_outside(word, n) {
        return Err(NormalErr::Strands {
            place: k as u64 + 1,
        });
    }
    Ok(normal_on(alloc, word, n)?)
}
