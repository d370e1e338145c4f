ghost use Rattle.std.specs.Prelude.{◌≡◌, ◌↔◌, ◌⊎◌, ℕ, List, [], ◌∷◌, ◌++◌, MatchOption};
ghost use Rattle.braid_word.specs.Words.{Letter as Signed};
ghost use Rattle.braid_word.specs.Order.{IsSigmaPositiveAt, IsSigmaNegativeAt, IsMixedAt};
ghost use Rattle.braid_word.specs.Sign.{sign_of};

use crate::letter::Letter;

/// The sign of a word, by its letters of least index.
#[derive(Clone, Copy, Debug, PartialEq, Eq)]
pub enum Sign {
    /// The word has no letter.
    Empty,
    /// Each letter of the least index, which is the number here, is positive.
    Positive(u16),
    /// Each letter of the least index, which is the number here, is negative.
    Negative(u16),
    /// Letters of both signs have the least index, which is the number here.
    Mixed(u16),
}

impl Sign {
    // The sign of a word of one letter.
    fn of_letter(letter: Letter) -> Sign
        ensures { result ≡ sign_of (letter ∷ []) }
    {
        if letter.negative {
            Sign::Negative(letter.index)
        } else {
            Sign::Positive(letter.index)
        }
    }

    // The least index.
    fn least(self) -> Option<u16>
        ensures { MatchOption result (self ≡ Sign.Empty)
            (λ i. (self ≡ Sign.Positive i) ⊎ (self ≡ Sign.Negative i) ⊎ (self ≡ Sign.Mixed i)) }
    {
        match self {
            Sign::Empty => None,
            Sign::Positive(index) | Sign::Negative(index) | Sign::Mixed(index) => Some(index),
        }
    }

    // The sign of a word of this sign with one more letter at its end.
    fn then(self, letter: Letter) -> Sign
        ensures { (w : List Signed) → self ≡ sign_of w → result ≡ sign_of (w ++ letter ∷ []) }
    {
        let alone = Sign::of_letter(letter);
        match self.least() {
            Some(least) if letter.index > least => self,
            Some(least) if letter.index == least => {
                if alone == self {
                    self
                } else {
                    Sign::Mixed(least)
                }
            }
            _ => alone,
        }
    }
}

/// The sign of a word, with its least index.
pub fn sign_of(letters: &[Letter]) -> Sign
    ensures value { result ≡ sign_of letters.now }
    ensures positive { (i : ℕ) → (result ≡ Sign.Positive i) ↔ IsSigmaPositiveAt i letters.now }
    ensures negative { (i : ℕ) → (result ≡ Sign.Negative i) ↔ IsSigmaNegativeAt i letters.now }
    ensures mixed { (i : ℕ) → (result ≡ Sign.Mixed i) ↔ IsMixedAt i letters.now }
    ensures empty { (result ≡ Sign.Empty) ↔ (letters.now ≡ []) }
{
    let mut sign = Sign::Empty;
    for letter in letters {
        sign = sign.then(*letter);
    }
    sign
}
