// Searches through the letters to the left of a cursor by the runs that are kept beside them.
ghost use Rattle.std.specs.Prelude.{◌≡◌, ℕ, ◌+◌, ◌-◌, ◌*◌, ◌<◌, ◌≤◌, length, slice_get, slice_index_or, MatchOption, Some};
ghost use Rattle.gap_word.specs.Gap.{StepsRight};
ghost use Rattle.handle_find.specs.Handles.{at};
ghost use Rattle.handle_find.specs.Scans.{IsHandleAtCursor};
ghost use Rattle.handle_find.specs.LetterRuns.{IsRun, HasRuns, IsScan, IsHigherFrom, Surveyed};

use crate::handle::are_opposite;
use braid_word::Letter;
use gap_word::GapWord;

/// The letter of left at a place, counted from 0.
pub fn letter_at(letters: &GapWord<Letter>, k: usize) -> Letter
    requires { k < length letters.now.left }
    ensures { result ≡ at letters.now.left k }
{
    match letters.left_at(k) {
        Some(letter) => letter,
        None => unreachable!(),
    }
}

// The run beside the letter at a place.
fn run_at(runs: &GapWord<u32>, k: usize) -> usize
    requires { k < length runs.now.left }
    ensures { result ≡ slice_index_or runs.now.left k 0 }
{
    match runs.left_at(k) {
        Some(run) => run as usize,
        None => unreachable!(),
    }
}

// The place from which on all letters are higher than this index.
pub(crate) fn higher_from(letters: &GapWord<Letter>, runs: &GapWord<u32>, index: u16) -> usize
    requires { HasRuns runs.now.left letters.now.left }
    ensures { IsHigherFrom letters.now.left index result }
{
    let mut k = letters.left_len();
    'passing: while k > 0 {
        if letter_at(letters, k - 1).index() <= index {
            return k;
        }
        k -= 1 + run_at(runs, k - 1);
    }
    0
}

// Where the handle begins that the first letter of right ends, by the place from which on letters are
// higher.
pub(crate) fn start_of(letters: &GapWord<Letter>, last: Letter, from: usize) -> Option<usize>
    requires last { slice_get letters.now.right 0 ≡ Some last }
    requires from { IsHigherFrom letters.now.left last.index from }
    ensures { MatchOption result ((p : ℕ) → IsHandleAtCursor letters.now p → ⊥)
        (λ p. IsHandleAtCursor letters.now p) }
{
    if from == 0 {
        return None;
    }
    if are_opposite(letter_at(letters, from - 1), last) {
        Some(from - 1)
    } else {
        None
    }
}

// A run of a letter that comes to the end of left. It goes on with that of an equal letter.
fn run_of(letters: &GapWord<Letter>, runs: &GapWord<u32>, last: Letter, from: usize) -> u32
    requires runs { HasRuns runs.now.left letters.now.left }
    requires from { IsHigherFrom letters.now.left last.index from }
    ensures { IsRun letters.now.left last.index (length letters.now.left) result }
{
    let higher = letters.left_len() - from;
    if from > 0 && letter_at(letters, from - 1).index() == last.index() {
        (higher + 1 + run_at(runs, from - 1)) as u32
    } else {
        higher as u32
    }
}

// Passes the first letter of right, which ends no handle.
pub(crate) fn keep(
    letters: &mut GapWord<Letter>,
    runs: &mut GapWord<u32>,
    last: Letter,
    from: usize,
)
    requires scan { IsScan letters.old runs.old }
    requires last { slice_get letters.old.right 0 ≡ Some last }
    requires from { IsHigherFrom letters.old.left last.index from }
    requires none { (p : ℕ) → IsHandleAtCursor letters.old p → ⊥ }
    ensures scan { IsScan letters.new runs.new }
    ensures steps { StepsRight letters.old letters.new }
{
    let run = run_of(letters, runs, last, from);
    letters.step_right();
    runs.push_left(run);
}

// What is found of the letters inside a handle: how many are raised by a reduction, from which place on
// these stand, and a bound below the indices of those before.
#[derive(Clone, Copy)]
pub(crate) struct Survey {
    pub(crate) raised: usize,
    pub(crate) from: usize,
    pub(crate) low: u16,
}

// Looks through the letters after a place, all of which are of this index or higher.
pub(crate) fn look_through(
    letters: &GapWord<Letter>,
    runs: &GapWord<u32>,
    start: usize,
    index: u16,
) -> Survey
    requires runs { HasRuns runs.now.left letters.now.left }
    requires start { start < length letters.now.left }
    requires lower { (at letters.now.left start).index < index }
    requires higher { (m : ℕ) → start < m → m < length letters.now.left
        → index ≤ (at letters.now.left m).index }
    ensures { Surveyed letters.now.left (start + 1) index result.raised result.from result.low }
{
    let mut raised = 0;
    let mut from = letters.left_len();
    let mut low = u16::MAX;
    let mut k = from;
    'passing: while k > start + 1 {
        let found = letter_at(letters, k - 1).index();
        if found == index {
            k -= 1;
            raised += 1;
            from = k;
            low = u16::MAX;
        } else {
            k -= 1 + run_at(runs, k - 1);
            low = low.min(found);
        }
    }
    Survey { raised, from, low }
}
