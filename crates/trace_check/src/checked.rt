ghost use Rattle.std.specs.Prelude.{◌≡◌};

use braid_word::{Letter, Word};
use line_file::FileErr;
use std::marker::Model;
use trace_format::Verdict;

/// Why a line of a trace file is refused.
#[derive(Clone, Copy, Debug, PartialEq, Eq)]
pub enum Why {
    /// It hasn't the form of the line that is due.
    Form,
    /// It isn't the start, the left or the right line that is due.
    Header,
    /// The step doesn't apply to the present word.
    Step,
    /// The line, a term, or a word is too long.
    Long,
    /// The witness isn't the present word.
    Witness,
    /// The witness hasn't the verdict's sign.
    Sign,
    /// The file ends too early.
    Truncated,
    /// The file goes on behind its end.
    Extra,
}

/// Why a trace file isn't accepted: its first line, counted from 1, that is refused, and why, or that memory
/// ran out.
pub type CheckErr = FileErr<Why>;

/// What an accepted trace file claims: two words, or the braid words of two terms, a verdict on them, the
/// word that it gives as witness, and the number of steps that lead there.
#[derive(Debug, Drop)]
pub struct Checked {
    left: Word,
    right: Word,
    verdict: Verdict,
    witness: Word,
    steps: u64,
}

impl Model for Checked {
    ghost use Rattle.trace_check.specs.Accepted.{Claim};

    ghost Value = { Claim };

    ghost view = { λ s. record {
      left = s.left;
      right = s.right;
      verdict = s.verdict;
      witness = s.witness;
      steps = s.steps;
    } };
}

impl Checked {
    // Puts a claim together.
    pub(crate) fn new(
        left: Word,
        right: Word,
        verdict: Verdict,
        witness: Word,
        steps: u64,
    ) -> Checked
        ensures { result
            ≡ record { left = left; right = right; verdict = verdict; witness = witness; steps = steps } }
    {
        Checked {
            left,
            right,
            verdict,
            witness,
            steps,
        }
    }

    /// The left word, or the braid word of the left term.
    pub fn left(&self) -> &[Letter]
        ensures { result.now ≡ self.now.left }
    {
        self.left.letters()
    }

    /// The right word, or the braid word of the right term.
    pub fn right(&self) -> &[Letter]
        ensures { result.now ≡ self.now.right }
    {
        self.right.letters()
    }

    /// The word that the file gives as witness.
    pub fn witness(&self) -> &[Letter]
        ensures { result.now ≡ self.now.witness }
    {
        self.witness.letters()
    }

    /// How the braid of the left word compares with that of the right one.
    pub fn verdict(&self) -> Verdict
        ensures { result ≡ self.now.verdict }
    {
        self.verdict
    }

    /// How many steps the file has.
    pub fn steps(&self) -> u64
        ensures { result ≡ self.now.steps }
    {
        self.steps
    }
}
