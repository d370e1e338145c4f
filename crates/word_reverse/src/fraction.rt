ghost use Rattle.std.specs.Prelude.{◌≡◌};

use braid_word::{Letter, Word};
use line_file::FileErr;
use std::marker::Model;

/// Why a line of a reverse file is refused.
#[derive(Clone, Copy, Debug, PartialEq, Eq)]
pub enum ReverseWhy {
    /// It hasn't the form of the line that is due.
    Form,
    /// It isn't the start or the word that is due.
    Header,
    /// The place of the step has no corner of the present word.
    Step,
    /// The line or a word is too long.
    Long,
    /// The present word isn't the fraction of the left and the right word.
    Fraction,
    /// The file ends too early.
    Truncated,
    /// The file goes on behind its end.
    Extra,
}

/// Why a reverse file isn't accepted: its first line, counted from 1, that is refused, and why, or that
/// memory ran out.
pub type ReverseErr = FileErr<ReverseWhy>;

/// What an accepted reverse file claims: a word w, and two words u and v without inverse letters, such that
/// u v^-1 represents the braid of w.
///
/// After Dehornoy, Groups with a complemented presentation, 1997.
#[derive(Debug, Drop)]
pub struct Fraction {
    word: Word,
    left: Word,
    right: Word,
}

impl Model for Fraction {
    ghost use Rattle.word_reverse.specs.Accepted.{Claim};

    ghost Value = { Claim };

    ghost view = { λ f. record { word = f.word; left = f.left; right = f.right } };
}

impl Fraction {
    // Puts a claim together.
    pub(crate) fn new(word: Word, left: Word, right: Word) -> Fraction
        ensures { result ≡ record { word = word; left = left; right = right } }
    {
        Fraction { word, left, right }
    }

    /// The word w.
    pub fn word(&self) -> &[Letter]
        ensures { result.now ≡ self.now.word }
    {
        self.word.letters()
    }

    /// The word u of the fraction u v^-1.
    pub fn left(&self) -> &[Letter]
        ensures { result.now ≡ self.now.left }
    {
        self.left.letters()
    }

    /// The word v of the fraction u v^-1.
    pub fn right(&self) -> &[Letter]
        ensures { result.now ≡ self.now.right }
    {
        self.right.letters()
    }
}
