// Reverse files as files of lines, and their check.
ghost use Rattle.std.specs.Prelude.{◌≡◌, ◌↔◌, ℕ, Ok, Err, IfOk};
ghost use Rattle.line_file.specs.Keeping.{Gives};
ghost use Rattle.word_reverse.specs.ReverseText.{Reversal};
ghost use Rattle.word_reverse.specs.Accepted.{IsAccepted, IsValid, claim_of};
ghost use Rattle.word_reverse.specs.Checking.{reverse_file, checked_of};
ghost use Rattle.word_reverse.specs.FirstRefusal.{IsFirstRefusal, HasNoRefusal, IfRefused};
ghost use Rattle.word_reverse.specs.declared.fraction.ReverseWhy.{ReverseWhy as Cause};

use crate::MAX_LINE;
use crate::due::Due;
use crate::fraction::{Fraction, ReverseErr, ReverseWhy};
use crate::keep::keep;
use line_file::{LineFormat, Stop, check_file};
use std::alloc::{AllocError, Global};
use std::marker::Model;

/// What is due in a reverse file, by what was read of it: reverse files as a format of files of lines.
///
/// A `Checker` of `line_file` takes their bytes in pieces, and `check_source` takes them from a source. What
/// these claim holds by [`law_checked`](crate::law_checked).
#[derive(Debug, Drop)]
pub struct ReverseFile {
    due: Due,
}

impl Model for ReverseFile {
    ghost use Rattle.word_reverse.specs.Keeping.{state_of};
    ghost use Rattle.word_reverse.specs.States.{State};

    ghost Value = { State };

    ghost view = { λ file. state_of file.due };
}

impl LineFormat for ReverseFile {
    type Why = ReverseWhy;

    type Claim = Fraction;

    ghost format = { reverse_file };

    fn start(_alloc: Global) -> Result<ReverseFile, AllocError> {
        Ok(ReverseFile { due: Due::Start })
    }

    fn keep(self, alloc: Global, line: &[u8]) -> Result<ReverseFile, Stop<ReverseWhy>> {
        Ok(ReverseFile {
            due: keep(alloc, self.due, line)?,
        })
    }

    fn is_passed(&self) -> bool {
        matches!(self.due, Due::Passed(_))
    }

    fn claim(self) -> Option<Fraction> {
        match self.due {
            Due::Passed(fraction) => Some(fraction),
            _ => None,
        }
    }

    fn most() -> u32 {
        MAX_LINE as u32
    }

    fn extra() -> ReverseWhy {
        ReverseWhy::Extra
    }

    fn long() -> ReverseWhy {
        ReverseWhy::Long
    }

    fn truncated() -> ReverseWhy {
        ReverseWhy::Truncated
    }
}

/// Checks a reverse file of any maker: turns the corners of its steps, from its word to its fraction.
///
/// It is accepted where it is the text of a reversal each of whose steps turns a corner, whichever that is,
/// and whose last word is the left word and the inverse of the right one behind it, both positive, over words
/// of at most 100,000 letters. Then this fraction represents the braid of its word. Any other file is
/// refused, at the first line that can't stand there; lines count from 1. It takes memory for the words of
/// its lines, and once for the word that its steps change. The format is this project's.
pub fn check_reverse(alloc: Global, bytes: &[u8]) -> Result<Fraction, ReverseErr>
    // What it claims is what the reversal claims whose text the file is, which is accepted, and so is valid.
    ensures accepted { IfOk result
        (λ claim. (r : Reversal) × IsAccepted bytes.now r × IsValid r × (claim ≡ claim_of r)) }

    // What is accepted isn't refused, unless memory runs out, and is the text of one reversal alone.
    ensures only { (r : Reversal) → IsAccepted bytes.now r → Gives result (Ok (claim_of r)) }
    ensures one { (r s : Reversal) → IsAccepted bytes.now r → IsAccepted bytes.now s → r ≡ s }

    // A refusal is the file's first; that one is answered, unless memory runs out; and there is none exactly
    // where the file is the text of an accepted reversal.
    ensures refused { IfRefused result (IsFirstRefusal bytes.now) }
    ensures first { (line : ℕ) (why : Cause) → IsFirstRefusal bytes.now line why
        → Gives result (Err (line, why)) }
    ensures unrefused { HasNoRefusal bytes.now ↔ ((r : Reversal) × IsAccepted bytes.now r) }

    // What it claims, or its first refusal.
    ensures exact { Gives result (checked_of bytes.now) }
{
    check_file::<ReverseFile>(alloc, bytes)
}
