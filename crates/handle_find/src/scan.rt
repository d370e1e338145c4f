ghost use Rattle.std.specs.Prelude.{◌≡◌, ◌+◌, ◌-◌, ◌<◌, ◌≤◌, false, true, [], ◌∷◌, ◌++◌, length, slice_get, IfOk, MatchOption};
ghost use Rattle.braid_word.specs.Words.{inverse, quotient};
ghost use Rattle.braid_word.specs.Sign.{sign_of};
ghost use Rattle.gap_word.specs.Gap.{gap, PopsLeft, PopsRight};
ghost use Rattle.gap_word.specs.declared.TheConstants.{MAX_ROOM};
ghost use Rattle.handle_find.specs.Handles.{HasNoHandle};
ghost use Rattle.handle_find.specs.Scans.{whole, places, IsHandleAtCursor, reduct_at_cursor, Advances};

use crate::closing::reduce_at;
use crate::left_sign::left_sign;
use crate::walk::{higher_from, keep, start_of};
use braid_word::{Letter, Sign};
use gap_word::GapWord;
use std::alloc::{AllocError, Global};
use std::marker::Model;

/// What the first letter to the right of the cursor is found to be.
#[derive(Clone, Copy, Debug, PartialEq, Eq)]
pub enum Advance {
    /// There is none.
    End,
    /// It ends a handle, which begins at this place, counted from 0.
    Closes(usize),
    /// It ends no handle, and has gone to the left of the cursor.
    Kept,
}

/// A word with a cursor before which no handle ends.
///
/// Letters are taken and put at the cursor. All memory is taken when the scan is made: no other call takes
/// any.
#[derive(Debug, Drop)]
pub struct Scan {
    letters: GapWord<Letter>,
    runs: GapWord<u32>,
}

impl Model for Scan {
    ghost use Rattle.braid_word.specs.Words.{Letter as Signed};
    ghost use Rattle.gap_word.specs.Gap.{Gap};
    ghost use Rattle.handle_find.specs.LetterRuns.{IsScan};

    ghost Value = { Gap Signed };

    ghost view = { λ s. s.letters };

    ghost invariant = { λ s. IsScan s.letters s.runs };
}

/// Puts the letters of a word in front of right, where they keep their order.
pub fn put_word(letters: &mut GapWord<Letter>, word: &[Letter])
    requires { length word.now ≤ letters.old.spare }
    ensures { letters.new ≡ gap letters.old.left (word.now ++ letters.old.right)
        (letters.old.spare - length word.now) }
{
    for k in (0..word.len()).rev() {
        letters.push_right(word[k]);
    }
}

// Puts the inverse of a word in front of right.
fn put_inverse(letters: &mut GapWord<Letter>, word: &[Letter])
    requires { length word.now ≤ letters.old.spare }
    ensures { letters.new ≡ gap letters.old.left (inverse word.now ++ letters.old.right)
        (letters.old.spare - length word.now) }
{
    for letter in word {
        letters.push_right(letter.opposite());
    }
}

impl Scan {
    /// A scan with the cursor before the first letter of this word, and room for so many letters in all.
    pub fn make(alloc: Global, word: &[Letter], room: usize) -> Result<Scan, AllocError>
        requires word { length word.now ≤ room }
        requires room { room ≤ MAX_ROOM }
        ensures { IfOk result (λ s. s ≡ gap [] word.now (room - length word.now)) }
    {
        Scan::of_quotient(alloc, &[], word, room)
    }

    /// A scan with the cursor before the first letter of u^-1 v, and room for so many letters in all.
    pub fn of_quotient(
        alloc: Global,
        u: &[Letter],
        v: &[Letter],
        room: usize,
    ) -> Result<Scan, AllocError>
        requires words { length u.now + length v.now ≤ room }
        requires room { room ≤ MAX_ROOM }
        ensures { IfOk result
            (λ s. s ≡ gap [] (quotient u.now v.now) (room - (length u.now + length v.now))) }
    {
        let mut letters = GapWord::with_capacity(alloc, room)?;
        let runs = GapWord::with_capacity(alloc, room)?;
        put_word(&mut letters, v);
        put_inverse(&mut letters, u);
        Ok(Scan { letters, runs })
    }

    /// Looks at the first letter to the right of the cursor, and passes it where it ends no handle.
    pub fn advance(&mut self) -> Advance
        ensures answer { Advances self.old result self.new }
        ensures none { HasNoHandle self.new.left }
    {
        let Some(last) = self.letters.right_at(0) else {
            return Advance::End;
        };
        let from = higher_from(&self.letters, &self.runs, last.index());
        match start_of(&self.letters, last, from) {
            Some(start) => Advance::Closes(start),
            None => {
                keep(&mut self.letters, &mut self.runs, last, from);
                Advance::Kept
            }
        }
    }

    /// Reduces the handle that begins at this place, counted from 0, and ends with the first letter to the
    /// right of the cursor, where its reduct has at most so many letters. Otherwise nothing changes.
    ///
    /// The cursor then stands at the handle's start, or further on.
    pub fn reduce(&mut self, start: usize, limit: usize) -> bool
        requires handle { IsHandleAtCursor self.old start }
        requires room { limit < places self.old }
        ensures taken { result ≡ true → (length (reduct_at_cursor self.old start) ≤ limit)
            × (whole self.new ≡ reduct_at_cursor self.old start) }
        ensures stays { result ≡ false → (limit < length (reduct_at_cursor self.old start))
            × (self.new ≡ self.old) }
        ensures room { places self.new ≡ places self.old }
        ensures none { HasNoHandle self.new.left }
    {
        reduce_at(&mut self.letters, &mut self.runs, start, limit)
    }

    /// Takes the last letter of left out. `None` exactly where left is empty.
    pub fn back(&mut self) -> Option<Letter>
        ensures letter { MatchOption result ((self.old.left ≡ []) × (self.new ≡ self.old))
            (λ x. PopsLeft self.old x self.new) }
        ensures none { HasNoHandle self.new.left }
    {
        let _run = self.runs.pop_left();
        self.letters.pop_left()
    }

    /// Takes the first letter of right out. `None` exactly where right is empty.
    pub fn front(&mut self) -> Option<Letter>
        ensures letter { MatchOption result ((self.old.right ≡ []) × (self.new ≡ self.old))
            (λ x. PopsRight self.old x self.new) }
        ensures none { HasNoHandle self.new.left }
    {
        self.letters.pop_right()
    }

    /// Puts a letter in front of right.
    pub fn put(&mut self, letter: Letter)
        requires { 0 < self.old.spare }
        ensures { self.new ≡ gap self.old.left (letter ∷ self.old.right) (self.old.spare - 1) }
    {
        self.letters.push_right(letter);
    }

    /// The sign of the letters to the left of the cursor.
    pub fn sign(&self) -> Sign
        ensures { result ≡ sign_of self.now.left }
    {
        left_sign(&self.letters)
    }

    /// How many letters left has.
    pub fn left_len(&self) -> usize
        ensures value { result ≡ length self.now.left }
        ensures within { places self.now ≤ MAX_ROOM }
        ensures none { HasNoHandle self.now.left }
    {
        self.letters.left_len()
    }

    /// How many letters right has.
    pub fn right_len(&self) -> usize
        ensures value { result ≡ length self.now.right }
        ensures within { places self.now ≤ MAX_ROOM }
        ensures none { HasNoHandle self.now.left }
    {
        self.letters.right_len()
    }

    /// How many more letters there is room for.
    pub fn spare(&self) -> usize
        ensures value { result ≡ self.now.spare }
        ensures within { places self.now ≤ MAX_ROOM }
        ensures none { HasNoHandle self.now.left }
    {
        self.letters.spare()
    }

    /// The letter of left at this place, counted from 0. `None` exactly past its end.
    pub fn left_at(&self, k: usize) -> Option<Letter>
        ensures { result ≡ slice_get self.now.left k }
    {
        self.letters.left_at(k)
    }

    /// The letter of right at this place, counted from 0. `None` exactly past its end.
    pub fn right_at(&self, k: usize) -> Option<Letter>
        ensures { result ≡ slice_get self.now.right k }
    {
        self.letters.right_at(k)
    }
}
