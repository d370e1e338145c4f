// A reduction in place, at a handle whose last letter is the first one to the right of a cursor.
ghost use Rattle.std.specs.Prelude.{◌≡◌, ℕ, ◌+◌, ◌-◌, ◌<◌, ◌≤◌, ◌==◌, ◌⊎◌, true, false, ◌++◌, length, take, drop, IsTrue, ◌↔◌};
ghost use Rattle.std.specs.List.{count_by, flat_map, remove};
ghost use Rattle.gap_word.specs.Gap.{gap, room};
ghost use Rattle.handle_find.specs.Handles.{at, replaced};
ghost use Rattle.handle_find.specs.Scans.{whole, IsHandleAtCursor, reduct_at_cursor};
ghost use Rattle.handle_find.specs.LetterRuns.{IsScan, IsBarred, Surveyed};

use crate::walk::{Survey, letter_at, look_through};
use braid_word::Letter;
use gap_word::GapWord;

// Puts what stands for a letter inside a handle that begins with `first` in front of right.
fn put_replaced(letters: &mut GapWord<Letter>, letter: Letter, first: Letter)
    requires { length (replaced first.index first.negative letter) ≤ letters.old.spare }
    ensures { letters.new ≡ gap letters.old.left
        (replaced first.index first.negative letter ++ letters.old.right)
        (letters.old.spare - length (replaced first.index first.negative letter)) }
{
    let raised = first.index + 1;
    if letter.index == raised {
        letters.push_right(Letter::new(raised, first.negative));
        letters.push_right(Letter::new(first.index, letter.negative));
        letters.push_right(Letter::new(raised, !first.negative));
    } else {
        letters.push_right(letter);
    }
}

/// Takes the letters to the left of the cursor back, as far as this place, counted from 0. What stands for
/// each of them, inside a handle that begins with `first`, is put in front of right.
pub fn take_back(letters: &mut GapWord<Letter>, from: usize, first: Letter)
    requires place { from ≤ length letters.old.left }
    requires room { from + length (flat_map (replaced first.index first.negative)
        (drop from letters.old.left)) + length letters.old.right ≤ room letters.old }
    ensures left { letters.new.left ≡ take from letters.old.left }
    ensures right { letters.new.right ≡ flat_map (replaced first.index first.negative)
        (drop from letters.old.left) ++ letters.old.right }
    ensures room { room letters.new ≡ room letters.old }
{
    for _ in from..letters.left_len() {
        let Some(letter) = letters.pop_left() else {
            unreachable!();
        };
        put_replaced(letters, letter, first);
    }
}

// Drops the runs from a place on.
fn drop_runs(runs: &mut GapWord<u32>, from: usize)
    requires { from ≤ length runs.old.left }
    ensures left { runs.new.left ≡ take from runs.old.left }
    ensures right { runs.new.right ≡ runs.old.right }
    ensures room { room runs.new ≡ room runs.old }
{
    for _ in from..runs.left_len() {
        let _run = runs.pop_left();
    }
}

// Takes letters back, and drops their runs.
fn shorten(letters: &mut GapWord<Letter>, runs: &mut GapWord<u32>, from: usize, first: Letter)
    requires scan { IsScan letters.old runs.old }
    requires place { from ≤ length letters.old.left }
    requires room { from + length (flat_map (replaced first.index first.negative)
        (drop from letters.old.left)) + length letters.old.right ≤ room letters.old }
    ensures scan { IsScan letters.new runs.new }
    ensures left { letters.new.left ≡ take from letters.old.left }
    ensures right { letters.new.right ≡ flat_map (replaced first.index first.negative)
        (drop from letters.old.left) ++ letters.old.right }
    ensures room { room letters.new ≡ room letters.old }
{
    take_back(letters, from, first);
    drop_runs(runs, from);
}

// Whether no handle can go across a place, where the letters from it on have no index below `low`.
fn is_barred(letters: &GapWord<Letter>, place: usize, low: u16) -> bool
    requires { place ≤ length letters.now.left }
    ensures { IsTrue result → (place ≡ 0) ⊎ ((at letters.now.left (place - 1)).index < low) }
{
    place == 0 || letter_at(letters, place - 1).index() < low
}

// Takes a letter out, where those after it stay.
fn remove_at(letters: &mut GapWord<Letter>, runs: &mut GapWord<u32>, place: usize)
    requires scan { IsScan letters.old runs.old }
    requires barred { (low : ℕ) × IsBarred letters.old.left place low }
    ensures scan { IsScan letters.new runs.new }
    ensures letters { letters.new ≡ gap (remove letters.old.left place) letters.old.right
        (letters.old.spare + 1) }
{
    letters.remove_left(place);
    runs.remove_left(place);
}

// Takes the last letter of left out.
fn drop_last(letters: &mut GapWord<Letter>, runs: &mut GapWord<u32>, len: usize)
    requires scan { IsScan letters.old runs.old }
    requires len { length letters.old.left ≡ len + 1 }
    ensures scan { IsScan letters.new runs.new }
    ensures letters { letters.new ≡ gap (take len letters.old.left) letters.old.right
        (letters.old.spare + 1) }
{
    let _letter = letters.pop_left();
    let _run = runs.pop_left();
}

// How many letters the reduct has, by the count of those inside the handle that are raised.
fn reduced_len(letters: &GapWord<Letter>, start: usize, first: Letter, raised: usize) -> usize
    requires handle { IsHandleAtCursor letters.now start }
    requires first { first ≡ at letters.now.left start }
    requires raised { raised ≡ count_by (λ x. x.index == first.index + 1) (drop (start + 1) letters.now.left) }
    ensures { result ≡ length (reduct_at_cursor letters.now start) }
{
    letters.left_len() + letters.right_len() - 2 + 2 * raised
}

/// What `Scan::reduce` does, over letters and their runs.
pub(crate) fn reduce_at(
    letters: &mut GapWord<Letter>,
    runs: &mut GapWord<u32>,
    start: usize,
    limit: usize,
) -> bool
    requires scan { IsScan letters.old runs.old }
    requires handle { IsHandleAtCursor letters.old start }
    requires room { limit < room letters.old }
    ensures scan { IsScan letters.new runs.new }
    ensures taken { result ≡ true → (length (reduct_at_cursor letters.old start) ≤ limit)
        × (whole letters.new ≡ reduct_at_cursor letters.old start) }
    ensures stays { result ≡ false → (limit < length (reduct_at_cursor letters.old start))
        × (letters.new ≡ letters.old) }
    ensures room { room letters.new ≡ room letters.old }
{
    let first = letter_at(letters, start);
    let found = look_through(letters, runs, start, first.index() + 1);
    if reduced_len(letters, start, first, found.raised) > limit {
        return false;
    }
    close(letters, runs, start, first, &found);
    true
}

// Reduces at a handle, where there is room for the reduct and one letter more.
fn close(
    letters: &mut GapWord<Letter>,
    runs: &mut GapWord<u32>,
    start: usize,
    first: Letter,
    found: &Survey,
)
    requires scan { IsScan letters.old runs.old }
    requires handle { IsHandleAtCursor letters.old start }
    requires first { first ≡ at letters.old.left start }
    requires found { Surveyed letters.old.left (start + 1)
        (first.index + 1) found.now.raised found.now.from found.now.low }
    requires room { length (reduct_at_cursor letters.old start) < room letters.old }
    ensures scan { IsScan letters.new runs.new }
    ensures reduct { whole letters.new ≡ reduct_at_cursor letters.old start }
    ensures room { room letters.new ≡ room letters.old }
{
    let Some(_last) = letters.pop_right() else {
        unreachable!();
    };
    shorten(letters, runs, found.from, first);
    if is_barred(letters, start, found.low) {
        remove_at(letters, runs, start);
    } else {
        shorten(letters, runs, start + 1, first);
        drop_last(letters, runs, start);
    }
}
