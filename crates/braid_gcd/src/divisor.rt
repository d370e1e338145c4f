ghost use Rattle.std.specs.Prelude.{◌≡◌};
ghost use Rattle.braid_gcd.specs.NormalWords.{answer};

use braid_word::Letter;
use std::marker::Model;

/// The greatest common left divisor of two positive words, and what is left of them behind it.
///
/// Each is the word that its normal form spells.
#[derive(Debug, Drop)]
pub struct CommonDivisor {
    divisor: Vec<Letter>,
    left: Vec<Letter>,
    right: Vec<Letter>,
}

impl Model for CommonDivisor {
    ghost use Rattle.braid_gcd.specs.NormalWords.{Answer, answer};

    ghost Value = { Answer };

    ghost view = { λ c. answer c.divisor.items c.left.items c.right.items };
}

impl CommonDivisor {
    /// These words.
    pub(crate) fn of(divisor: Vec<Letter>, left: Vec<Letter>, right: Vec<Letter>) -> CommonDivisor
        ensures { result ≡ answer divisor.items left.items right.items }
    {
        CommonDivisor {
            divisor,
            left,
            right,
        }
    }

    /// The divisor.
    pub fn divisor(&self) -> &[Letter]
        ensures { result.now ≡ self.now.divisor }
    {
        &self.divisor
    }

    /// What is left of the first word behind the divisor.
    pub fn left(&self) -> &[Letter]
        ensures { result.now ≡ self.now.left }
    {
        &self.left
    }

    /// What is left of the second word behind the divisor.
    pub fn right(&self) -> &[Letter]
        ensures { result.now ≡ self.now.right }
    {
        &self.right
    }
}
