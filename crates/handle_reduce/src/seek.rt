// The search for the leftmost handle, which goes on from where the cursor stands.
ghost use Rattle.std.specs.Prelude.{◌≡◌, ◌+◌, ◌<◌, [], length, slice_get, Some, None, MatchOption};
ghost use Rattle.handle_find.specs.Handles.{leftmost_of};
ghost use Rattle.handle_find.specs.Scans.{whole, places};
ghost use Rattle.handle_reduce.specs.Runs.{judged};

use crate::progress::Progress;
use braid_word::Letter;
use handle_find::{Advance, Scan};

// Moves the cursor on to the last letter of the leftmost handle, and answers where that begins; or to the
// end, where there is none.
fn seek(scan: &mut Scan) -> Option<usize>
    ensures found { MatchOption result ((scan.new.right ≡ []) × (leftmost_of (whole scan.new) ≡ None))
        (λ start. leftmost_of (whole scan.new) ≡ Some (start, length scan.new.left)) }
    ensures word { whole scan.new ≡ whole scan.old }
    ensures room { places scan.new ≡ places scan.old }
{
    'seeking: loop {
        match scan.advance() {
            Advance::End => return None,
            Advance::Closes(start) => return Some(start),
            Advance::Kept => {}
        }
    }
}

// Moves the cursor on to the leftmost handle. The answer is where that begins, if there is one, and how a
// run stands that has made this many reductions and has reached this word, which isn't too long.
pub(crate) fn settle(scan: &mut Scan, made: u32, handles: u32) -> (usize, Progress)
    ensures start { result.1 ≡ Progress.Running
        → leftmost_of (whole scan.new) ≡ Some (result.0, length scan.new.left) }
    ensures progress { result.1 ≡ judged handles made (whole scan.new) (leftmost_of (whole scan.new)) }
    ensures word { whole scan.new ≡ whole scan.old }
    ensures room { places scan.new ≡ places scan.old }
{
    match seek(scan) {
        None => (0, Progress::Done(scan.sign())),
        Some(start) if made == handles => (start, Progress::HandlesMet),
        Some(start) => (start, Progress::Running),
    }
}

// The letter of the word at this place, counted from 0.
pub(crate) fn letter_at(scan: &Scan, k: usize) -> Letter
    requires { k < length (whole scan.now) }
    ensures { slice_get (whole scan.now) k ≡ Some result }
{
    let left = scan.left_len();
    let found = if k < left {
        scan.left_at(k)
    } else {
        scan.right_at(k - left)
    };
    match found {
        Some(letter) => letter,
        None => unreachable!(),
    }
}
