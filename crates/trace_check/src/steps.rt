// The steps of a replay, each by its kind. A step that is refused leaves the word as far as it was looked at.
ghost use Rattle.std.specs.Prelude.{◌≡◌, ℕ, ◌+◌, ◌-◌, ◌*◌, ◌<◌, ◌≤◌, ◌==◌, ◌++◌, length, take, drop, not, true, Ok, IsTrue, IfOk, OnOk, MatchOption, ◌↔◌};
ghost use Rattle.std.specs.List.{count_by};
ghost use Rattle.braid_word.specs.declared.TheConstants.{MAX_LETTERS};
ghost use Rattle.gap_word.specs.Gap.{gap};
ghost use Rattle.gap_word.specs.declared.TheConstants.{MAX_ROOM};
ghost use Rattle.handle_find.specs.Handles.{at};
ghost use Rattle.handle_find.specs.Scans.{whole, IsHandleAtCursor, reduct_at_cursor};
ghost use Rattle.wb_base.specs.Fields.{IsPlace};
ghost use Rattle.trace_format.specs.TraceLines.{IsStepLine};
ghost use Rattle.trace_format.specs.declared.line.StepLine.TheVariants.{Handle, Commute, Swap, Delete, Insert};
ghost use Rattle.trace_check.specs.Checking.{are_far, are_near, are_braided, are_inverse, stepped};
ghost use Rattle.trace_check.specs.Presents.{IsPresent, IsKnown, Counted, After, Takes};

use crate::checked::Why;
use crate::known::{Known, Stretch};
use braid_word::{Letter, MAX_LETTERS};
use gap_word::GapWord;
use handle_find::{letter_at, take_back};
use trace_format::StepLine;

// Moves the cursor before a place, counted from 1, or behind the last letter.
fn go_to(word: &mut GapWord<Letter>, place: u32)
    requires { IsPlace place }
    ensures { word.new ≡ gap (take (place - 1) (whole word.old)) (drop (place - 1) (whole word.old))
        word.old.spare }
{
    let len = word.left_len() + word.right_len();
    word.move_to((place as usize - 1).min(len));
}

// How many letters from a place on have the next index to this one, where all are higher: by how many there
// are from a later place on.
fn count_on(
    word: &GapWord<Letter>,
    from: usize,
    to: usize,
    index: u16,
    behind: usize,
) -> Option<usize>
    requires order { from ≤ to }
    requires short { length word.now.left ≤ MAX_ROOM }
    requires counted { Counted word.now.left index to behind }
    ensures { MatchOption result
        (((k : ℕ) → from ≤ k → k < to → index < (at word.now.left k).index) → ⊥)
        (λ n. Counted word.now.left index from n) }
{
    let mut raised = behind;
    for k in (from..to).rev() {
        let found = letter_at(word, k).index();
        if found <= index {
            return None;
        }
        if found == index + 1 {
            raised += 1;
        }
    }
    Some(raised)
}

// How many letters between a place and the cursor have the next index to that of `first`, where all are
// higher. What is known isn't read.
fn count_raised(word: &GapWord<Letter>, known: Known, start: usize, first: Letter) -> Option<usize>
    requires start { start < length word.now.left }
    requires known { IsKnown (whole word.now) known }
    ensures { MatchOption result
        (((k : ℕ) → start < k → k < length word.now.left → first.index < (at word.now.left k).index) → ⊥)
        (λ n. ((k : ℕ) → start < k → k < length word.now.left → first.index < (at word.now.left k).index)
        × (n ≡ count_by (λ x. x.index == first.index + 1) (drop (start + 1) word.now.left))) }
{
    let index = first.index();
    let end = word.left_len();
    let (low, high) = known.passed(start + 1, end, index);
    let behind = count_on(word, high, end, index, 0)?;
    count_on(word, start + 1, low, index, behind)
}

// How many letters are raised in the handle that begins at a place and ends with the first letter of right,
// if there is one.
fn raised_in(word: &GapWord<Letter>, known: Known, start: usize) -> Option<usize>
    requires { IsKnown (whole word.now) known }
    ensures { MatchOption result (IsHandleAtCursor word.now start → ⊥)
        (λ n. IsHandleAtCursor word.now start
        × (n ≡ count_by (λ x. x.index == (at word.now.left start).index + 1)
        (drop (start + 1) word.now.left))) }
{
    if start >= word.left_len() {
        return None;
    }
    let last = word.right_at(0)?;
    let first = letter_at(word, start);
    if !are_inverse(first, last) {
        return None;
    }
    count_raised(word, known, start, first)
}

// Reduces the handle that ends at the cursor. Where no letter inside is raised, all of them are then known.
fn close(word: &mut GapWord<Letter>, known: Known, start: usize, raised: usize) -> Known
    requires handle { IsHandleAtCursor word.old start }
    requires raised { raised ≡ count_by (λ x. x.index == (at word.old.left start).index + 1)
        (drop (start + 1) word.old.left) }
    requires present { IsPresent word.old }
    requires known { IsKnown (whole word.old) known }
    requires short { length (reduct_at_cursor word.old start) ≤ MAX_LETTERS }
    ensures reduct { whole word.new ≡ reduct_at_cursor word.old start }
    ensures present { IsPresent word.new }
    ensures known { IsKnown (whole word.new) result }
{
    let first = letter_at(word, start);
    let end = word.left_len();
    let Some(_last) = word.pop_right() else {
        unreachable!();
    };
    if raised == 0 {
        word.remove_left(start);
        let inside = Stretch {
            from: start,
            to: end - 1,
            above: first.index + 1,
        };
        return known.without(end).without(start).with(inside);
    }
    take_back(word, start + 1, first);
    let Some(_first) = word.pop_left() else {
        unreachable!();
    };
    Known::nothing()
}

// Reduces the handle at two places, counted from 1.
fn reduce(word: &mut GapWord<Letter>, known: Known, start: u32, end: u32) -> Result<Known, Why>
    requires start { IsPlace start }
    requires end { IsPlace end }
    requires present { IsPresent word.old }
    requires known { IsKnown (whole word.old) known }
    ensures word { After result (whole word.new) ≡ stepped (whole word.old) (Handle start end) }
    ensures present { OnOk result (IsPresent word.new) }
    ensures known { IfOk result (IsKnown (whole word.new)) }
{
    let start = start as usize - 1;
    go_to(word, end);
    let Some(raised) = raised_in(word, known, start) else {
        return Err(Why::Step);
    };
    if word.left_len() + word.right_len() - 2 + 2 * raised > MAX_LETTERS {
        return Err(Why::Long);
    }
    Ok(close(word, known, start, raised))
}

// Whether the indices of two letters are 2 or more apart.
fn are_far(x: Letter, y: Letter) -> bool
    ensures { result ≡ are_far x y }
{
    x.index + 1 < y.index || y.index + 1 < x.index
}

// Whether they differ by 1.
fn are_near(x: Letter, y: Letter) -> bool
    ensures { result ≡ are_near x y }
{
    y.index == x.index + 1 || x.index == y.index + 1
}

// Whether three letters are a side of a braid relation.
fn are_braided(x: Letter, y: Letter, z: Letter) -> bool
    ensures { result ≡ are_braided x y z }
{
    z.index == x.index && y.negative == x.negative && z.negative == x.negative && are_near(x, y)
}

// Whether two letters are inverse to each other.
fn are_inverse(x: Letter, y: Letter) -> bool
    ensures { result ≡ are_inverse x y }
{
    y.index == x.index && y.negative != x.negative
}

// Takes the first letter of right out.
fn take_letter(word: &mut GapWord<Letter>) -> Result<Letter, Why>
    ensures { Takes result word.old word.new }
{
    match word.pop_right() {
        Some(letter) => Ok(letter),
        None => Err(Why::Step),
    }
}

// Has two letters that commute, the first at this place, change places.
fn commute(word: &mut GapWord<Letter>, place: u32) -> Result<Known, Why>
    requires place { IsPlace place }
    requires present { IsPresent word.old }
    ensures word { After result (whole word.new) ≡ stepped (whole word.old) (Commute place) }
    ensures present { OnOk result (IsPresent word.new) }
    ensures known { IfOk result (IsKnown (whole word.new)) }
{
    go_to(word, place);
    let x = take_letter(word)?;
    let y = take_letter(word)?;
    if !are_far(x, y) {
        return Err(Why::Step);
    }
    word.push_right(x);
    word.push_right(y);
    Ok(Known::nothing())
}

// Turns a side of a braid relation, from this place on, into the other side.
fn swap(word: &mut GapWord<Letter>, place: u32) -> Result<Known, Why>
    requires place { IsPlace place }
    requires present { IsPresent word.old }
    ensures word { After result (whole word.new) ≡ stepped (whole word.old) (Swap place) }
    ensures present { OnOk result (IsPresent word.new) }
    ensures known { IfOk result (IsKnown (whole word.new)) }
{
    go_to(word, place);
    let x = take_letter(word)?;
    let y = take_letter(word)?;
    let z = take_letter(word)?;
    if !are_braided(x, y, z) {
        return Err(Why::Step);
    }
    word.push_right(y);
    word.push_right(x);
    word.push_right(y);
    Ok(Known::nothing())
}

// Takes two letters out that are inverse to each other, the first at this place.
fn delete(word: &mut GapWord<Letter>, place: u32) -> Result<Known, Why>
    requires place { IsPlace place }
    requires present { IsPresent word.old }
    ensures word { After result (whole word.new) ≡ stepped (whole word.old) (Delete place) }
    ensures present { OnOk result (IsPresent word.new) }
    ensures known { IfOk result (IsKnown (whole word.new)) }
{
    go_to(word, place);
    let x = take_letter(word)?;
    let y = take_letter(word)?;
    if !are_inverse(x, y) {
        return Err(Why::Step);
    }
    Ok(Known::nothing())
}

// Puts a letter and its inverse in, the first at this place.
fn insert(word: &mut GapWord<Letter>, place: u32, letter: Letter) -> Result<Known, Why>
    requires place { IsPlace place }
    requires present { IsPresent word.old }
    ensures word { After result (whole word.new) ≡ stepped (whole word.old) (Insert place letter) }
    ensures present { OnOk result (IsPresent word.new) }
    ensures known { IfOk result (IsKnown (whole word.new)) }
{
    let len = word.left_len() + word.right_len();
    if place as usize - 1 > len {
        return Err(Why::Step);
    }
    if len + 2 > MAX_LETTERS {
        return Err(Why::Long);
    }
    go_to(word, place);
    word.push_right(letter.opposite());
    word.push_right(letter);
    Ok(Known::nothing())
}

/// Makes a step, and answers what is then known. Only reductions have a use for it.
pub fn step_to(word: &mut GapWord<Letter>, known: Known, step: StepLine) -> Result<Known, Why>
    requires step { IsStepLine step }
    requires present { IsPresent word.old }
    requires known { IsKnown (whole word.old) known }
    ensures word { After result (whole word.new) ≡ stepped (whole word.old) step }
    ensures present { OnOk result (IsPresent word.new) }
    ensures known { IfOk result (IsKnown (whole word.new)) }
{
    match step {
        StepLine::Handle(start, end) => reduce(word, known, start, end),
        StepLine::Commute(place) => commute(word, place),
        StepLine::Swap(place) => swap(word, place),
        StepLine::Delete(place) => delete(word, place),
        StepLine::Insert(place, letter) => insert(word, place, letter),
    }
}
