use crate::progress::Progress::{self, Done, HandlesMet, LengthMet, Running};
use crate::reducer::Reducer;
use braid_word::{Account, Letter, Sign, Word};
use handle_find::{leftmost, reduct};
use std::alloc::Global;
use std::process::Abort;
use std::test::Fail;

// How a run stands, its steps, and its present word as numbers, of which a negative one is an inverse.
type State<'a> = (Progress, &'a [(u32, u32)], &'a [i32]);

// The word of some numbers.
fn word_of(rt: &impl Abort, alloc: Global, numbers: &[i32]) -> Result<Word, Fail> {
    let mut word = Word::new(alloc);
    for number in numbers {
        let index = u16::try_from(number.unsigned_abs())?;
        assert!(rt; 1 <= index && index < 65535);
        word.push(Letter::new(index, *number < 0))?;
    }
    Ok(word)
}

// The run of the word of some numbers.
fn begin(
    rt: &impl Abort,
    alloc: Global,
    numbers: &[i32],
    handles: u32,
    limit: u32,
) -> Result<Reducer, Fail> {
    let word = word_of(rt, alloc, numbers)?;
    assert!(rt; word.letters().len() <= 100_000);
    assert!(rt; handles <= 100_000);
    assert!(rt; limit <= 100_000);
    Ok(Reducer::begin(alloc, word, handles, limit)?)
}

// Asserts how a run stands. The row and the turns are for the message.
fn assert_stands(rt: &impl Abort, run: &Reducer, state: State, row: usize, turns: usize) {
    let (progress, steps, present) = state;
    assert_eq!(rt; run.progress(), progress, "row {row}, {turns} turns");
    assert_eq!(rt;
        run.steps_done() as usize,
        steps.len(),
        "row {row}, {turns} turns"
    );
    for k in 0..run.steps_done() {
        assert_eq!(rt;
            run.step_at(k),
            steps[k as usize],
            "row {row}, {turns} turns, step {k}"
        );
    }
    assert_eq!(rt;
        run.current_len() as usize,
        present.len(),
        "row {row}, {turns} turns"
    );
    for k in 0..run.current_len() {
        let letter = run.current_at(k);
        let index = i32::from(letter.index);
        let number = if letter.negative { -index } else { index };
        assert_eq!(rt;
            number,
            present[k as usize],
            "row {row}, {turns} turns, letter {k}"
        );
    }
}

// Asserts how a run stands after 0, 1, .. turns, and that it stays as it is at the last of these.
fn assert_goes_through(rt: &impl Abort, mut run: Reducer, states: &[State], row: usize) {
    for (turns, state) in states.iter().enumerate() {
        let progress = run.turn(u32::from(turns > 0));
        assert_eq!(rt; progress, state.0, "row {row}, {turns} turns");
        assert_stands(rt, &run, *state, row, turns);
    }
    assert!(rt; !states.is_empty());
    let last = states[states.len() - 1];
    for more in [1, 1000] {
        assert_eq!(rt; run.turn(more), last.0, "row {row}, at its end");
        assert_stands(rt, &run, last, row, states.len());
    }
}

#[test]
fn run_stands_after_each_turn_and_stays_at_its_end(rt: HostRuntime) -> Result<(), Fail> {
    // The word, the limits on reductions and on letters, and how the run stands after 0, 1, .. turns.
    let rows: [(&[i32], u32, u32, &[State]); 12] = [
        (
            &[-2, -1, 2, 1],
            4,
            100,
            &[
                (Running, &[], &[-2, -1, 2, 1]),
                (Running, &[(2, 4)], &[-2, 2, 1, -2]),
                (Done(Sign::Positive(1)), &[(2, 4), (1, 2)], &[1, -2]),
            ],
        ),
        (
            &[-2, -1, 2, 1],
            1,
            100,
            &[
                (Running, &[], &[-2, -1, 2, 1]),
                (HandlesMet, &[(2, 4)], &[-2, 2, 1, -2]),
            ],
        ),
        (
            &[-2, -1, 2, 1],
            2,
            100,
            &[
                (Running, &[], &[-2, -1, 2, 1]),
                (Running, &[(2, 4)], &[-2, 2, 1, -2]),
                (Done(Sign::Positive(1)), &[(2, 4), (1, 2)], &[1, -2]),
            ],
        ),
        (&[-2, -1, 2, 1], 4, 3, &[(LengthMet, &[], &[-2, -1, 2, 1])]),
        (
            &[-1, 2, 2, 1],
            9,
            5,
            &[
                (Running, &[], &[-1, 2, 2, 1]),
                (LengthMet, &[], &[-1, 2, 2, 1]),
            ],
        ),
        (
            &[-1, 2, 2, 1],
            9,
            6,
            &[
                (Running, &[], &[-1, 2, 2, 1]),
                (Running, &[(1, 4)], &[2, 1, -2, 2, 1, -2]),
                (Done(Sign::Positive(1)), &[(1, 4), (3, 4)], &[2, 1, 1, -2]),
            ],
        ),
        (&[-1, 2, 2, 1], 0, 3, &[(LengthMet, &[], &[-1, 2, 2, 1])]),
        (&[-1, 2, 2, 1], 0, 5, &[(HandlesMet, &[], &[-1, 2, 2, 1])]),
        (&[-1, 2], 0, 2, &[(Done(Sign::Negative(1)), &[], &[-1, 2])]),
        (&[], 0, 0, &[(Done(Sign::Empty), &[], &[])]),
        (
            &[1, 2, -2, -1],
            9,
            9,
            &[
                (Running, &[], &[1, 2, -2, -1]),
                (Running, &[(2, 3)], &[1, -1]),
                (Done(Sign::Empty), &[(2, 3), (1, 2)], &[]),
            ],
        ),
        (
            &[-1, 2, -3, -2, -1, 3, 1, -2, 1],
            1000,
            1000,
            &[
                (Running, &[], &[-1, 2, -3, -2, -1, 3, 1, -2, 1]),
                (Running, &[(2, 4)], &[-1, -3, -2, 3, -1, 3, 1, -2, 1]),
                (Running, &[(2, 4), (5, 7)], &[-1, -3, -2, 3, 3, -2, 1]),
                (
                    Running,
                    &[(2, 4), (5, 7), (1, 7)],
                    &[-3, 2, -1, -2, 3, 3, 2, -1, -2],
                ),
                (
                    Running,
                    &[(2, 4), (5, 7), (1, 7), (4, 7)],
                    &[-3, 2, -1, 3, 2, -3, 3, 2, -3, -1, -2],
                ),
                (
                    Done(Sign::Negative(1)),
                    &[(2, 4), (5, 7), (1, 7), (4, 7), (6, 7)],
                    &[-3, 2, -1, 3, 2, 2, -3, -1, -2],
                ),
            ],
        ),
    ];
    for (row, (numbers, handles, limit, states)) in rows.into_iter().enumerate() {
        let run = begin(&rt, rt.alloc(), numbers, handles, limit)?;
        assert_goes_through(&rt, run, states, row);
    }
    Ok(())
}

#[test]
fn a_quotient_is_reduced_as_its_word_is(rt: HostRuntime) -> Result<(), Fail> {
    let alloc = rt.alloc();
    let left = word_of(&rt, alloc, &[1, 2])?;
    let right = word_of(&rt, alloc, &[2, 1])?;
    assert!(rt; left.letters().len() + right.letters().len() <= 100_000);
    let mut run = Reducer::of_quotient(alloc, left.letters(), right.letters(), 9, 9)?;
    let first: State = (Running, &[], &[-2, -1, 2, 1]);
    assert_stands(&rt, &run, first, 0, 0);
    run.turn(9);
    let last: State = (Done(Sign::Positive(1)), &[(2, 4), (1, 2)], &[1, -2]);
    assert_stands(&rt, &run, last, 0, 9);
    Ok(())
}

#[test]
fn turns_are_cut_anywhere(rt: HostRuntime) -> Result<(), Fail> {
    let numbers = [-1, 2, -3, -2, -1, 3, 1, -2, 1];
    let two_turns: State = (Running, &[(2, 4), (5, 7)], &[-1, -3, -2, 3, 3, -2, 1]);
    let end: State = (
        Done(Sign::Negative(1)),
        &[(2, 4), (5, 7), (1, 7), (4, 7), (6, 7)],
        &[-3, 2, -1, 3, 2, 2, -3, -1, -2],
    );
    for (row, (first, second)) in [(1, 1), (2, 0), (0, 2)].iter().enumerate() {
        let mut run = begin(&rt, rt.alloc(), &numbers, 1000, 1000)?;
        run.turn(*first);
        assert_eq!(rt; run.turn(*second), Running, "row {row}");
        assert_stands(&rt, &run, two_turns, row, 2);
        assert_eq!(rt; run.turn(u32::MAX), end.0, "row {row}");
        assert_stands(&rt, &run, end, row, 5);
    }
    Ok(())
}

// A number below a bound, from a state that goes on.
fn below(state: &mut u64, bound: u64) -> u64 {
    *state = state
        .wrapping_mul(6364136223846793005)
        .wrapping_add(1442695040888963407);
    if bound == 0 {
        0
    } else {
        (*state >> 33) % bound
    }
}

// The numbers of a word of at most 14 letters on four strands.
fn random_numbers(alloc: Global, state: &mut u64) -> Result<Vec<i32>, Fail> {
    let mut numbers = Vec::new(alloc);
    for _ in 0..below(state, 15) {
        numbers.push(match below(state, 6) {
            0 => 1,
            1 => -1,
            2 => 2,
            3 => -2,
            4 => 3,
            _ => -3,
        })?;
    }
    Ok(numbers)
}

// Asserts that a run and reductions of plain words reach the same, one turn after another.
fn assert_agrees(
    rt: &impl Abort,
    alloc: Global,
    run: &mut Reducer,
    word: Word,
    row: usize,
) -> Result<(), Fail> {
    let mut word = word;
    for turn in 0..40 {
        let Some((start, end)) = leftmost(word.letters()) else {
            assert!(rt;
                matches!(run.progress(), Done(_)),
                "row {row}, {turn} turns"
            );
            return Ok(());
        };
        assert_eq!(rt; run.progress(), Running, "row {row}, {turn} turns");
        run.turn(1);
        word = reduct(alloc, word.letters(), start, end)?;
        assert!(rt; run.steps_done() == turn + 1, "row {row}, {turn} turns");
        let (first, last) = run.step_at(turn);
        assert_eq!(rt;
            (first as usize, last as usize),
            (start.saturating_add(1), end.saturating_add(1)),
            "row {row}, {turn} turns"
        );
        assert_eq!(rt;
            run.current_len() as usize,
            word.letters().len(),
            "row {row}, {turn} turns"
        );
        for k in 0..run.current_len() {
            assert_eq!(rt;
                Some(run.current_at(k)),
                word.letters().get(k as usize).copied(),
                "row {row}, {turn} turns, letter {k}"
            );
        }
    }
    Ok(())
}

#[test]
fn runs_agree_with_reductions_of_plain_words(rt: HostRuntime) -> Result<(), Fail> {
    for row in 0..300_usize {
        let mut state = row as u64;
        let numbers = random_numbers(rt.alloc(), &mut state)?;
        let mut run = begin(&rt, rt.alloc(), &numbers, 1000, 2000)?;
        let word = word_of(&rt, rt.alloc(), &numbers)?;
        assert_agrees(&rt, rt.alloc(), &mut run, word, row)?;
    }
    Ok(())
}
