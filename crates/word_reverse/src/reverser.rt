ghost use Rattle.std.specs.Prelude.{◌≡◌, ◌≢◌, ℕ, ◌+◌, ◌≤◌, ◌<◌, ◌↔◌, List, length, take, drop, slice_get, Some, None, IfOk, IfSome, IsTrue};
ghost use Rattle.braid_word.specs.Words.{Letter as Signed, inverse, IsOn};
ghost use Rattle.braid_word.specs.Equivalence.{EquivalentOn};
ghost use Rattle.braid_word.specs.declared.TheConstants.{MAX_LETTERS};
ghost use Rattle.word_reverse.specs.declared.TheConstants.{MAX_BOUND};
ghost use Rattle.word_reverse.specs.Fractions.{positive_front, IsSplit, IsFraction};
ghost use Rattle.word_reverse.specs.RevRuns.{IsRevAfter, turned};

use crate::cursor::{front_len, hold, letter_at, settle, turn_here};
use crate::progress::RevProgress;
use braid_word::{Letter, Word};
use gap_word::GapWord;
use std::alloc::{AllocError, Global};
use std::marker::Model;

/// A run of right reversing, advanced by turns.
///
/// Each turn turns the leftmost corner of the present word, an inverse letter with a positive one behind it,
/// after Dehornoy's word reversing. The run ends at a word without a corner, which is a fraction as it
/// stands, or at one of its limits.
#[derive(Debug, Drop)]
pub struct Reverser {
    // The present word. While the run goes on, the cursor stands between the letters of the leftmost corner.
    word: GapWord<Letter>,
    places: Vec<u32>,
    steps: u32,
    limit: u32,
    progress: RevProgress,
}

impl Model for Reverser {
    ghost use Rattle.std.specs.Prelude.{vec_capacity};
    ghost use Rattle.word_reverse.specs.RevRuns.{RevRun};
    ghost use Rattle.word_reverse.specs.Cursors.{whole, Keeps};

    ghost Value = { RevRun };

    ghost view = { λ r. record {
      steps = r.steps;
      limit = r.limit;
      run = record { progress = r.progress; places = r.places.items; present = whole r.word };
    } };

    ghost invariant = { λ r.
        Keeps r.progress r.word r.places.items r.steps r.limit (vec_capacity r.places) };
}

impl Reverser {
    /// The run of a word with these limits, on corners turned and on the letters of its words, before its
    /// first turn.
    ///
    /// It takes the memory of the whole run.
    pub fn begin(alloc: Global, word: Word, steps: u32, limit: u32) -> Result<Reverser, AllocError>
        requires word { length word ≤ MAX_LETTERS }
        requires steps { steps ≤ MAX_BOUND }
        requires limit { limit ≤ MAX_BOUND }
        ensures { IfOk result (λ r. IsRevAfter word steps limit 0 r) }
    {
        let letters = word.letters();
        let mut present = hold(alloc, letters, letters.len().max(limit as usize))?;
        if letters.len() > limit as usize {
            return Ok(Reverser {
                word: present,
                places: Vec::new(alloc),
                steps,
                limit,
                progress: RevProgress::LengthMet,
            });
        }
        let places = Vec::with_capacity(alloc, steps as usize)?;
        let progress = settle(&mut present, 0, steps);
        Ok(Reverser {
            word: present,
            places,
            steps,
            limit,
            progress,
        })
    }

    /// How the run stands after this many turns more.
    ///
    /// A run that has ended stays as it is. No turn takes memory.
    pub fn turn(&mut self, at_most: u32) -> RevProgress
        ensures turned { self.new ≡ turned self.old at_most }
        ensures run { (w : List Signed) → (steps limit t : ℕ) → IsRevAfter w steps limit t self.old
            → IsRevAfter w steps limit (t + at_most) self.new }

        // The present word represents the same braid as the first one, on as few strands.
        ensures equivalent { (w : List Signed) → (steps limit t n : ℕ)
            → IsRevAfter w steps limit t self.old
            → IsOn n w → EquivalentOn n w self.new.run.present }
        ensures ended { self.old.run.progress ≢ RevProgress.Running → self.new ≡ self.old }
        ensures progress { result ≡ self.new.run.progress }
    {
        for _ in 0..at_most {
            if !self.is_running() {
                return self.progress;
            }
            self.step();
        }
        self.progress
    }

    /// How the run stands.
    pub fn progress(&self) -> RevProgress
        ensures { result ≡ self.now.run.progress }
    {
        self.progress
    }

    /// How many corners were turned.
    pub fn steps_done(&self) -> u32
        ensures { result ≡ length self.now.run.places }
    {
        self.places.len() as u32
    }

    /// The place of the k-th corner that was turned, counted from 0: that of its first letter, counted from 1
    /// in the word before.
    pub fn step_at(&self, k: u32) -> u32
        requires { k < length self.now.run.places }
        ensures { slice_get self.now.run.places k ≡ Some result }
    {
        self.places[k as usize]
    }

    /// How many letters the present word has.
    pub fn current_len(&self) -> u32
        ensures { result ≡ length self.now.run.present }
    {
        (self.word.left_len() + self.word.right_len()) as u32
    }

    /// Its k-th letter, counted from 0.
    pub fn current_at(&self, k: u32) -> Letter
        requires { k < length self.now.run.present }
        ensures { slice_get self.now.run.present k ≡ Some result }
    {
        letter_at(&self.word, k as usize)
    }

    /// Where the present word of a run that is done is cut into its fraction u v^-1: how many letters u has.
    /// The others are the inverse of v.
    ///
    /// `None` exactly where the run isn't done. It reads the letters of u.
    pub fn split(&self) -> Option<u32>
        ensures none { (result ≡ None) ↔ (self.now.run.progress ≢ RevProgress.Done) }
        ensures front { IfSome result (λ k. k ≡ length (positive_front self.now.run.present)) }

        // The word is that fraction as it stands.
        ensures fraction { IfSome result (λ k. IsSplit self.now.run.present
            (take k self.now.run.present) (inverse (drop k self.now.run.present))) }

        // The fraction represents the braid of the first word.
        ensures equivalent { (w : List Signed) → (steps limit t : ℕ) → IsRevAfter w steps limit t self.now
            → IfSome result (λ k. IsFraction w
            (take k self.now.run.present) (inverse (drop k self.now.run.present))) }
    {
        match self.progress {
            RevProgress::Done => Some(front_len(&self.word) as u32),
            RevProgress::Running | RevProgress::StepsMet | RevProgress::LengthMet => None,
        }
    }

    // Whether a further turn changes the run.
    fn is_running(&self) -> bool
        ensures { IsTrue result ↔ (self.now.run.progress ≡ RevProgress.Running) }
    {
        matches!(self.progress, RevProgress::Running)
    }

    // One more turn of a run that goes on.
    fn step(&mut self)
        requires { self.old.run.progress ≡ RevProgress.Running }
        ensures { self.new ≡ turned self.old 1 }
    {
        // Counted from 1, the corner is where the cursor is, counted from 0.
        let place = self.word.left_len() as u32;
        if !turn_here(&mut self.word, self.limit as usize) {
            self.progress = RevProgress::LengthMet;
            return;
        }
        let Ok(()) = self.places.push(place) else {
            unreachable!();
        };
        self.progress = settle(&mut self.word, self.places.len() as u32, self.steps);
    }
}
