// The word of a reverser, with a cursor that goes on to the leftmost corner.
ghost use Rattle.std.specs.Prelude.{◌≡◌, ◌+◌, ◌-◌, ◌<◌, ◌≤◌, ◌⊎◌, List, [], ◌∷◌, ◌++◌, length, slice_get, false, Some, None, IfOk, IsTrue, MatchOption};
ghost use Rattle.braid_word.specs.Words.{Letter as Signed};
ghost use Rattle.gap_word.specs.Gap.{gap, room};
ghost use Rattle.gap_word.specs.declared.TheConstants.{MAX_ROOM};
ghost use Rattle.word_reverse.specs.Corners.{is_corner, are_near, corner_of, turned_pair};
ghost use Rattle.word_reverse.specs.Fractions.{positive_front};
ghost use Rattle.word_reverse.specs.RevRuns.{judged};
ghost use Rattle.word_reverse.specs.Cursors.{whole, MeetAt, IsBetween, AtCorner, turned_at_cursor};

use crate::progress::RevProgress;
use braid_word::Letter;
use gap_word::GapWord;
use std::alloc::{AllocError, Global};

// Puts the letters of a word in front of right, where they keep their order.
fn put_word(word: &mut GapWord<Letter>, letters: &[Letter])
    requires { length letters.now ≤ word.old.spare }
    ensures { word.new ≡ gap word.old.left (letters.now ++ word.old.right)
        (word.old.spare - length letters.now) }
{
    for k in (0..letters.len()).rev() {
        word.push_right(letters[k]);
    }
}

// A word with the cursor before its first letter, and room for so many letters in all.
pub(crate) fn hold(
    alloc: Global,
    letters: &[Letter],
    room: usize,
) -> Result<GapWord<Letter>, AllocError>
    requires word { length letters.now ≤ room }
    requires room { room ≤ MAX_ROOM }
    ensures { IfOk result (λ g. g ≡ gap [] letters.now (room - length letters.now)) }
{
    let mut word = GapWord::with_capacity(alloc, room)?;
    put_word(&mut word, letters);
    Ok(word)
}

// The letters beside the cursor. `None` exactly where one of them is missing.
pub(crate) fn at_cursor(word: &GapWord<Letter>) -> Option<(Letter, Letter)>
    ensures { MatchOption result ((word.now.left ≡ []) ⊎ (word.now.right ≡ []))
        (λ pair. MeetAt word.now pair.0 pair.1) }
{
    let behind = word.left_len();
    if behind == 0 {
        return None;
    }
    let last = word.left_at(behind - 1)?;
    let first = word.right_at(0)?;
    Some((last, first))
}

// Whether two letters, one behind the other, are a corner.
pub(crate) fn is_corner(x: Letter, y: Letter) -> bool
    ensures { result ≡ is_corner x y }
{
    x.negative && !y.negative
}

// Whether the letters beside the cursor are a corner, where left has none.
fn is_at_corner(word: &GapWord<Letter>) -> bool
    requires { corner_of word.now.left ≡ None }
    ensures corner { IsTrue result → AtCorner word.now }
    ensures none { result ≡ false → (y : Signed) → (back : List Signed)
        → word.now.right ≡ y ∷ back → corner_of (word.now.left ++ y ∷ []) ≡ None }
{
    match at_cursor(word) {
        Some((x, y)) => is_corner(x, y),
        None => false,
    }
}

// Moves the cursor on to the leftmost corner, or to the end of a word that has none.
fn advance(word: &mut GapWord<Letter>) -> bool
    requires { corner_of word.old.left ≡ None }
    ensures corner { IsTrue result → AtCorner word.new }
    ensures none { result ≡ false → corner_of (whole word.new) ≡ None }
    ensures word { whole word.new ≡ whole word.old }
    ensures room { room word.new ≡ room word.old }
{
    'passing: while !is_at_corner(word) {
        if !word.step_right() {
            return false;
        }
    }
    true
}

// Moves the cursor on to the leftmost corner. The answer is how a run stands that has made so many steps and
// has reached this word, which isn't too long.
pub(crate) fn settle(word: &mut GapWord<Letter>, made: u32, steps: u32) -> RevProgress
    requires { corner_of word.old.left ≡ None }
    ensures corner { result ≡ RevProgress.Running → AtCorner word.new }
    ensures progress { result ≡ judged steps made (corner_of (whole word.new)) }
    ensures word { whole word.new ≡ whole word.old }
    ensures room { room word.new ≡ room word.old }
{
    if !advance(word) {
        RevProgress::Done
    } else if made == steps {
        RevProgress::StepsMet
    } else {
        RevProgress::Running
    }
}

// The letter at a place of the whole word, counted from 0.
pub(crate) fn letter_at(word: &GapWord<Letter>, k: usize) -> Letter
    requires { k < length (whole word.now) }
    ensures { slice_get (whole word.now) k ≡ Some result }
{
    let left = word.left_len();
    let found = if k < left {
        word.left_at(k)
    } else {
        word.right_at(k - left)
    };
    match found {
        Some(letter) => letter,
        None => unreachable!(),
    }
}

// How many letters stand before the first inverse one.
pub(crate) fn front_len(word: &GapWord<Letter>) -> usize
    ensures { result ≡ length (positive_front (whole word.now)) }
{
    let len = word.left_len() + word.right_len();
    for k in 0..len {
        let letter = letter_at(word, k);
        if letter.negative {
            return k;
        }
    }
    len
}

// Whether the indices of two letters differ by 1.
fn are_near(x: Letter, y: Letter) -> bool
    ensures { result ≡ are_near x y }
{
    y.index == x.index + 1 || x.index == y.index + 1
}

// How many letters stand for a corner.
fn turned_pair_len(x: Letter, y: Letter) -> usize
    ensures { result ≡ length (turned_pair x y) }
{
    if x.index == y.index {
        0
    } else if are_near(x, y) {
        4
    } else {
        2
    }
}

// Puts what stands for a corner in front of right.
fn put_turned_pair(word: &mut GapWord<Letter>, x: Letter, y: Letter)
    requires { length (turned_pair x y) ≤ word.old.spare }
    ensures { word.new ≡ gap word.old.left (turned_pair x y ++ word.old.right)
        (word.old.spare - length (turned_pair x y)) }
{
    if x.index == y.index {
        return;
    }
    if are_near(x, y) {
        word.push_right(x);
        word.push_right(y.opposite());
        word.push_right(x.opposite());
        word.push_right(y);
    } else {
        word.push_right(x);
        word.push_right(y);
    }
}

// How many letters the word has with those beside the cursor turned as a corner.
pub(crate) fn turned_len(word: &GapWord<Letter>) -> usize
    requires { IsBetween word.now }
    ensures { result ≡ length (turned_at_cursor word.now) }
{
    let Some((x, y)) = at_cursor(word) else {
        unreachable!();
    };
    word.left_len() + word.right_len() - 2 + turned_pair_len(x, y)
}

// Turns the letters beside the cursor as a corner. The cursor then stands before what stands for them.
pub(crate) fn turn_pair(word: &mut GapWord<Letter>)
    requires between { IsBetween word.old }
    requires room { length (turned_at_cursor word.old) ≤ room word.old }
    ensures word { whole word.new ≡ turned_at_cursor word.old }
    ensures front { (x : Signed) × (word.old.left ≡ word.new.left ++ x ∷ []) }
    ensures room { room word.new ≡ room word.old }
{
    let (Some(x), Some(y)) = (word.pop_left(), word.pop_right()) else {
        unreachable!();
    };
    put_turned_pair(word, x, y);
}

// Turns the corner at the cursor, where the word then has at most so many letters. Otherwise nothing changes.
pub(crate) fn turn_here(word: &mut GapWord<Letter>, limit: usize) -> bool
    requires corner { AtCorner word.old }
    requires room { limit ≤ room word.old }
    ensures turned { IsTrue result → (length (turned_at_cursor word.old) ≤ limit)
        × (whole word.new ≡ turned_at_cursor word.old) × (corner_of word.new.left ≡ None) }
    ensures stays { result ≡ false → (limit < length (turned_at_cursor word.old)) × (word.new ≡ word.old) }
    ensures room { room word.new ≡ room word.old }
{
    if turned_len(word) > limit {
        return false;
    }
    turn_pair(word);
    true
}
