ghost use Rattle.std.specs.Prelude.{◌≡◌, ◌+◌, ◌<◌, ◌≤◌, [], length, IfOk, OnOk};
ghost use Rattle.braid_word.specs.Words.{IsOn};
ghost use Rattle.garside_form.specs.FactorLists.{IsReady, IsSpelledBy, is_odd, turned_index, letter_factor};

use crate::lists::{drop_identities, take_in};
use braid_word::Letter;
use perm_braid::Perm;
use std::alloc::{AllocError, Global};

/// The half turns behind a list of simple braids.
#[derive(Clone, Copy, Debug)]
pub(crate) struct HalfTurns {
    /// How many came out of the list.
    pub(crate) made: u32,
    /// How many inverse ones the inverse letters brought.
    pub(crate) inverse: u32,
    /// Whether the number of both is odd.
    pub(crate) odd: bool,
}

// The index of a letter before half turns that stood behind them, whose number may be odd.
fn turned_index(n: u32, odd: bool, i: u32) -> u32
    requires { i ≤ n }
    ensures { result ≡ turned_index n odd i }
{
    if odd { n - i } else { i }
}

// The simple braid of a generator, or of an inverse one before an inverse half turn.
fn letter_factor(alloc: Global, n: u32, i: u32, negative: bool) -> Result<Perm, AllocError>
    requires high { n ≤ 64 }
    requires least { 1 ≤ i }
    requires below { i < n }
    ensures { IfOk result (λ p. p ≡ letter_factor n i negative) }
{
    if negative {
        let mut factor = Perm::delta(alloc, n)?;
        factor.before(i);
        Ok(factor)
    } else {
        let mut factor = Perm::identity(alloc, n)?;
        factor.after(i);
        Ok(factor)
    }
}

/// Takes the letters of a word in, one by one from the first: their product is that of the list, and then
/// that of the half turns. No half turn and no identity stays in the list.
///
/// Letters pass the half turns, and a half turn that comes out of the list is counted at once; so a letter
/// goes no further into the list than it moves something there.
pub(crate) fn take_letters(
    alloc: Global,
    word: &[Letter],
    n: u32,
    list: &mut Vec<Perm>,
) -> Result<HalfTurns, AllocError>
    requires high { n ≤ 64 }
    requires on { IsOn n word.now }
    requires most { length word.now ≤ 100000 }
    requires empty { list.old.items ≡ [] }
    ensures spelled { IfOk result (λ turns. IsSpelledBy n word.now list.new.items turns.made turns.inverse) }
    ensures ready { OnOk result (IsReady n list.new.items) }
    ensures parity { IfOk result (λ turns. turns.odd ≡ is_odd (turns.made + turns.inverse)) }
    ensures made { IfOk result (λ turns. turns.made ≤ 100000) }
    ensures inverse { IfOk result (λ turns. turns.inverse ≤ 100000) }
{
    let mut stack = Vec::new(alloc);
    let (mut made, mut inverse, mut odd) = (0, 0, false);
    for k in 0..word.len() {
        let letter = word[k];
        let i = turned_index(n, odd, u32::from(letter.index()));
        let factor = letter_factor(alloc, n, i, letter.negative)?;
        let turned = take_in(list, factor, &mut stack)?;
        drop_identities(list)?;
        made += u32::from(turned);
        inverse += u32::from(letter.negative);
        odd = (odd != letter.negative) != turned;
    }
    Ok(HalfTurns { made, inverse, odd })
}
