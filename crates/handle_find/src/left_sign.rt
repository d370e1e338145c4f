// The sign of the letters to the left of a cursor, among which there is no handle.
ghost use Rattle.std.specs.Prelude.{◌≡◌, ◌⊎◌, [], ◌∷◌};
ghost use Rattle.braid_word.specs.Sign.{sign_of};
ghost use Rattle.handle_find.specs.Handles.{HasNoHandle};

use crate::walk::letter_at;
use braid_word::{Letter, Sign};
use gap_word::GapWord;

// The sign of one letter.
fn of_letter(letter: Letter) -> Sign
    ensures value { result ≡ sign_of (letter ∷ []) }
    ensures index { (result ≡ Sign.Positive letter.index) ⊎ (result ≡ Sign.Negative letter.index) }
{
    if letter.negative {
        Sign::Negative(letter.index)
    } else {
        Sign::Positive(letter.index)
    }
}

// The sign of left. Without a handle all letters of least index have the sign of the first.
pub(crate) fn left_sign(letters: &GapWord<Letter>) -> Sign
    requires { HasNoHandle letters.now.left }
    ensures { result ≡ sign_of letters.now.left }
{
    let mut sign = Sign::Empty;
    let mut least = u16::MAX;
    for k in 0..letters.left_len() {
        let letter = letter_at(letters, k);
        let index = letter.index();
        if index < least {
            least = index;
            sign = of_letter(letter);
        }
    }
    sign
}
