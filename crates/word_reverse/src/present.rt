// The word that the steps of a reverse file have reached.
ghost use Rattle.std.specs.Prelude.{◌≡◌, ◌+◌, ◌-◌, ◌<◌, ◌≤◌, ◌++◌, length, drop, slice_get, take, IfOk, OnOk};
ghost use Rattle.std.specs.Bool.{Decides};
ghost use Rattle.wb_base.specs.Fields.{IsPlace};
ghost use Rattle.braid_word.specs.Words.{inverse};
ghost use Rattle.braid_word.specs.declared.TheConstants.{MAX_LETTERS};
ghost use Rattle.gap_word.specs.Gap.{room};
ghost use Rattle.word_reverse.specs.Corners.{begins_with_corner};
ghost use Rattle.word_reverse.specs.Fractions.{positive_front};
ghost use Rattle.word_reverse.specs.Cursors.{whole, IsBetween};
ghost use Rattle.word_reverse.specs.Checking.{word_eq, is_split, stepped};
ghost use Rattle.word_reverse.specs.Keeping.{After};

use crate::cursor::{at_cursor, front_len, hold, is_corner, letter_at, turn_pair, turned_len};
use crate::fraction::ReverseWhy;
use braid_word::{Letter, MAX_LETTERS, first_negative};
use gap_word::GapWord;
use std::alloc::{AllocError, Global};
use std::marker::Model;

/// The word that the steps of a file have reached. They change it in place, at a cursor, in room for the
/// longest word.
#[derive(Debug, Drop)]
pub struct Present {
    letters: GapWord<Letter>,
}

impl Model for Present {
    ghost use Rattle.std.specs.Prelude.{◌≡◌, List};
    ghost use Rattle.braid_word.specs.Words.{Letter as Signed};
    ghost use Rattle.braid_word.specs.declared.TheConstants.{MAX_LETTERS};
    ghost use Rattle.gap_word.specs.Gap.{room};
    ghost use Rattle.word_reverse.specs.Cursors.{whole};

    ghost Value = { List Signed };

    ghost view = { λ p. whole p.letters };

    ghost invariant = { λ p. room p.letters ≡ MAX_LETTERS };
}

// Whether the letters beside the cursor are a corner.
fn is_corner_here(letters: &GapWord<Letter>) -> bool
    requires { IsBetween letters.now }
    ensures { result ≡ begins_with_corner (drop (length letters.now.left - 1) (whole letters.now)) }
{
    let Some((x, y)) = at_cursor(letters) else {
        unreachable!();
    };
    is_corner(x, y)
}

// Turns the corner at a place, counted from 1. A step that is refused leaves the letters as they are.
fn turn_at(letters: &mut GapWord<Letter>, place: u32) -> Result<(), ReverseWhy>
    requires place { IsPlace place }
    requires room { room letters.old ≡ MAX_LETTERS }
    ensures word { After result (whole letters.new) ≡ stepped (whole letters.old) place }
    ensures room { room letters.new ≡ MAX_LETTERS }
{
    let place = place as usize;
    if place >= letters.left_len() + letters.right_len() {
        return Err(ReverseWhy::Step);
    }
    letters.move_to(place);
    if !is_corner_here(letters) {
        return Err(ReverseWhy::Step);
    }
    if turned_len(letters) > MAX_LETTERS {
        return Err(ReverseWhy::Long);
    }
    turn_pair(letters);
    Ok(())
}

// Whether the first letters are those of a word.
fn begins_with(letters: &GapWord<Letter>, word: &[Letter]) -> bool
    requires { length word.now ≤ length (whole letters.now) }
    ensures { Decides result (word.now ≡ take (length word.now) (whole letters.now)) }
{
    for k in 0..word.len() {
        if letter_at(letters, k) != word[k] {
            return false;
        }
    }
    true
}

// The letter of u v^-1 at a place, counted from 0.
fn fraction_at(u: &[Letter], v: &[Letter], k: usize) -> Letter
    requires { k < length u.now + length v.now }
    ensures { slice_get (u.now ++ inverse v.now) k ≡ Some result }
{
    if k < u.len() {
        u[k]
    } else {
        v[u.len() + v.len() - 1 - k].opposite()
    }
}

// Whether the letters are those of u v^-1.
fn is_fraction(letters: &GapWord<Letter>, u: &[Letter], v: &[Letter]) -> bool
    ensures { Decides result (whole letters.now ≡ u.now ++ inverse v.now) }
{
    if letters.left_len() + letters.right_len() != u.len() + v.len() {
        return false;
    }
    for k in 0..u.len() + v.len() {
        if letter_at(letters, k) != fraction_at(u, v, k) {
            return false;
        }
    }
    true
}

impl Present {
    /// This word, before any step.
    pub fn make(alloc: Global, word: &[Letter]) -> Result<Present, AllocError>
        requires { length word.now ≤ MAX_LETTERS }
        ensures { IfOk result (λ p. p ≡ word.now) }
    {
        Ok(Present {
            letters: hold(alloc, word, MAX_LETTERS)?,
        })
    }

    /// The word that the step at a place leads to.
    pub fn step(self, place: u32) -> Result<Present, ReverseWhy>
        requires { IsPlace place }
        ensures { result ≡ stepped self place }
    {
        let mut letters = self.letters;
        turn_at(&mut letters, place)?;
        Ok(Present { letters })
    }

    /// Whether this is the longest positive word that it begins with.
    pub fn has_front(&self, u: &[Letter]) -> bool
        ensures { result ≡ word_eq u.now (positive_front self.now) }
    {
        front_len(&self.letters) == u.len() && begins_with(&self.letters, u)
    }

    /// Whether it is u v^-1 as it stands, with v positive.
    pub fn is_split(&self, u: &[Letter], v: &[Letter]) -> bool
        ensures { result ≡ is_split self.now u.now v.now }
    {
        first_negative(v).is_none() && is_fraction(&self.letters, u, v)
    }
}
