ghost use Rattle.std.specs.Prelude.{◌≡◌, ◌+◌, ◌-◌, ◌≤◌, [], ◌++◌, length, slice_get, IfOk};
ghost use Rattle.std.specs.Bool.{Decides};
ghost use Rattle.braid_word.specs.declared.TheConstants.{MAX_LETTERS};
ghost use Rattle.gap_word.specs.Gap.{gap};
ghost use Rattle.handle_find.specs.Scans.{whole};
ghost use Rattle.trace_format.specs.TraceLines.{IsStepLine};
ghost use Rattle.trace_check.specs.Checking.{stepped};

use crate::checked::Why;
use crate::known::Known;
use crate::steps::step_to;
use braid_word::{Letter, MAX_LETTERS};
use gap_word::GapWord;
use handle_find::put_word;
use std::alloc::{AllocError, Global};
use std::marker::Model;
use trace_format::StepLine;

/// The word that the steps of a replay have reached. They change it in place, at a cursor, in room for the
/// longest word.
#[derive(Debug, Drop)]
pub struct Present {
    letters: GapWord<Letter>,
    known: Known,
}

impl Model for Present {
    ghost use Rattle.std.specs.Prelude.{List};
    ghost use Rattle.braid_word.specs.Words.{Letter as Signed};
    ghost use Rattle.handle_find.specs.Scans.{whole};
    ghost use Rattle.trace_check.specs.Presents.{IsPresent, IsKnown};

    ghost Value = { List Signed };

    ghost view = { λ p. whole p.letters };

    ghost invariant = { λ p. IsPresent p.letters × IsKnown (whole p.letters) p.known };
}

// The letter at a place of the whole word, counted from 0.
fn letter_of(letters: &GapWord<Letter>, k: usize) -> Option<Letter>
    ensures { result ≡ slice_get (whole letters.now) k }
{
    let left = letters.left_len();
    if k < left {
        letters.left_at(k)
    } else {
        letters.right_at(k - left)
    }
}

// Whether the letters are those of a word.
fn is_word(letters: &GapWord<Letter>, word: &[Letter]) -> bool
    ensures { Decides result (word.now ≡ whole letters.now) }
{
    if word.len() != letters.left_len() + letters.right_len() {
        return false;
    }
    for k in 0..word.len() {
        if letter_of(letters, k) != Some(word[k]) {
            return false;
        }
    }
    true
}

impl Present {
    /// This word, before any step.
    pub fn make(alloc: Global, word: &[Letter]) -> Result<Present, AllocError>
        requires { length word.now ≤ MAX_LETTERS }
        ensures { IfOk result (λ p. p ≡ word.now) }
    {
        let mut letters = GapWord::with_capacity(alloc, MAX_LETTERS + 1)?;
        put_word(&mut letters, word);
        Ok(Present {
            letters,
            known: Known::nothing(),
        })
    }

    /// The word that a step leads to.
    pub fn step(self, step: StepLine) -> Result<Present, Why>
        requires { IsStepLine step }
        ensures { result ≡ stepped self step }
    {
        let mut letters = self.letters;
        let known = step_to(&mut letters, self.known, step)?;
        Ok(Present { letters, known })
    }

    /// Whether it is this word.
    pub fn is(&self, word: &[Letter]) -> bool
        ensures { Decides result (word.now ≡ self.now) }
    {
        is_word(&self.letters, word)
    }
}
