use crate::progress::RevProgress::{self, Done, LengthMet, Running, StepsMet};
use crate::reverser::Reverser;
use crate::text::put_reversal;
use braid_word::{Letter, Word};
use std::alloc::Global;
use std::process::Abort;
use std::test::Fail;
use wb_base::MemSink;

// How a run stands, its places, its present word as numbers, of which a negative one is an inverse, and where
// that is cut into a fraction.
type State<'a> = (RevProgress, &'a [u32], &'a [i32], Option<u32>);

// The word of some numbers.
fn word_of(rt: &impl Abort, alloc: Global, numbers: &[i32]) -> Result<Word, Fail> {
    let mut word = Word::new(alloc);
    for number in numbers {
        let index = u16::try_from(number.unsigned_abs())?;
        assert!(rt; 1 <= index && index < 65535);
        word.push(Letter::new(index, *number < 0))?;
    }
    Ok(word)
}

// The run of a word with these limits.
fn begin(
    rt: &impl Abort,
    alloc: Global,
    word: Word,
    steps: u32,
    limit: u32,
) -> Result<Reverser, Fail> {
    assert!(rt; word.letters().len() <= 100_000);
    assert!(rt; steps <= 100_000);
    assert!(rt; limit <= 100_000);
    Ok(Reverser::begin(alloc, word, steps, limit)?)
}

// Asserts how a run stands. The row and the turns are for the message.
fn assert_stands(rt: &impl Abort, run: &Reverser, state: State, row: usize, turns: usize) {
    let (progress, places, present, split) = state;
    assert_eq!(rt; run.progress(), progress, "row {row}, {turns} turns");
    assert_eq!(rt; run.split(), split, "row {row}, {turns} turns");
    assert_eq!(rt;
        run.steps_done() as usize,
        places.len(),
        "row {row}, {turns} turns"
    );
    for k in 0..run.steps_done() {
        assert_eq!(rt;
            run.step_at(k),
            places[k as usize],
            "row {row}, {turns} turns, step {k}"
        );
    }
    assert_eq!(rt;
        run.current_len() as usize,
        present.len(),
        "row {row}, {turns} turns"
    );
    for k in 0..run.current_len() {
        let letter = run.current_at(k);
        let index = i32::from(letter.index);
        let number = if letter.negative { -index } else { index };
        assert_eq!(rt;
            number,
            present[k as usize],
            "row {row}, {turns} turns, letter {k}"
        );
    }
}

// Asserts how a run stands after 0, 1, .. turns, and that it stays as it is at the last of these.
fn assert_goes_through(rt: &impl Abort, mut run: Reverser, states: &[State], row: usize) {
    for (turns, state) in states.iter().enumerate() {
        let progress = run.turn(u32::from(turns > 0));
        assert_eq!(rt; progress, state.0, "row {row}, {turns} turns");
        assert_stands(rt, &run, *state, row, turns);
    }
    assert!(rt; !states.is_empty());
    let last = states[states.len() - 1];
    for more in [1, 1000] {
        assert_eq!(rt; run.turn(more), last.0, "row {row}, at its end");
        assert_stands(rt, &run, last, row, states.len());
    }
}

#[test]
fn run_stands_after_each_turn_and_stays_at_its_end(rt: HostRuntime) -> Result<(), Fail> {
    // The word, the limits on steps and on letters, and how the run stands after 0, 1, .. turns.
    let rows: [(&[i32], u32, u32, &[State]); 9] = [
        (
            &[-1, 2],
            9,
            9,
            &[
                (Running, &[], &[-1, 2], None),
                (Done, &[1], &[2, 1, -2, -1], Some(2)),
            ],
        ),
        (
            &[-2, 1],
            9,
            9,
            &[
                (Running, &[], &[-2, 1], None),
                (Done, &[1], &[1, 2, -1, -2], Some(2)),
            ],
        ),
        (
            &[-1, 3],
            9,
            9,
            &[
                (Running, &[], &[-1, 3], None),
                (Done, &[1], &[3, -1], Some(1)),
            ],
        ),
        (
            &[-2, -1, 2, 1],
            9,
            9,
            &[
                (Running, &[], &[-2, -1, 2, 1], None),
                (Running, &[2], &[-2, 2, 1, -2, -1, 1], None),
                (Running, &[2, 1], &[1, -2, -1, 1], None),
                (Done, &[2, 1, 3], &[1, -2], Some(1)),
            ],
        ),
        (
            &[-1, -1, 2],
            9,
            9,
            &[
                (Running, &[], &[-1, -1, 2], None),
                (Running, &[2], &[-1, 2, 1, -2, -1], None),
                (Running, &[2, 1], &[2, 1, -2, -1, 1, -2, -1], None),
                (Done, &[2, 1, 4], &[2, 1, -2, -2, -1], Some(2)),
            ],
        ),
        (
            &[1, -1, 1, -1, 1],
            9,
            9,
            &[
                (Running, &[], &[1, -1, 1, -1, 1], None),
                (Running, &[2], &[1, -1, 1], None),
                (Done, &[2, 2], &[1], Some(1)),
            ],
        ),
        (
            &[2, 1, -3, -3],
            0,
            4,
            &[(Done, &[], &[2, 1, -3, -3], Some(2))],
        ),
        (&[-2, -1], 0, 2, &[(Done, &[], &[-2, -1], Some(0))]),
        (&[], 0, 0, &[(Done, &[], &[], Some(0))]),
    ];
    for (row, (numbers, steps, limit, states)) in rows.into_iter().enumerate() {
        let word = word_of(&rt, rt.alloc(), numbers)?;
        let run = begin(&rt, rt.alloc(), word, steps, limit)?;
        assert_goes_through(&rt, run, states, row);
    }
    Ok(())
}

#[test]
fn run_ends_at_each_limit(rt: HostRuntime) -> Result<(), Fail> {
    let rows: [(&[i32], u32, u32, &[State]); 8] = [
        // As many steps as may be made, and one more that is wanted, or none.
        (
            &[-2, -1, 2, 1],
            2,
            9,
            &[
                (Running, &[], &[-2, -1, 2, 1], None),
                (Running, &[2], &[-2, 2, 1, -2, -1, 1], None),
                (StepsMet, &[2, 1], &[1, -2, -1, 1], None),
            ],
        ),
        (
            &[-1, 1],
            1,
            2,
            &[(Running, &[], &[-1, 1], None), (Done, &[1], &[], Some(0))],
        ),
        (&[-1, 2], 0, 9, &[(StepsMet, &[], &[-1, 2], None)]),
        // As many letters as there may be, and one more.
        (
            &[-1, 2],
            9,
            4,
            &[
                (Running, &[], &[-1, 2], None),
                (Done, &[1], &[2, 1, -2, -1], Some(2)),
            ],
        ),
        (
            &[-1, 2],
            9,
            3,
            &[
                (Running, &[], &[-1, 2], None),
                (LengthMet, &[], &[-1, 2], None),
            ],
        ),
        (
            &[-1, -1, 2],
            9,
            6,
            &[
                (Running, &[], &[-1, -1, 2], None),
                (Running, &[2], &[-1, 2, 1, -2, -1], None),
                (LengthMet, &[2], &[-1, 2, 1, -2, -1], None),
            ],
        ),
        // The word's own length comes before the steps, and these before the length of the next word.
        (&[1, -1, 2], 0, 2, &[(LengthMet, &[], &[1, -1, 2], None)]),
        (&[-1, 2], 0, 3, &[(StepsMet, &[], &[-1, 2], None)]),
    ];
    for (row, (numbers, steps, limit, states)) in rows.into_iter().enumerate() {
        let word = word_of(&rt, rt.alloc(), numbers)?;
        let run = begin(&rt, rt.alloc(), word, steps, limit)?;
        assert_goes_through(&rt, run, states, row);
    }
    Ok(())
}

#[test]
fn turns_are_cut_anywhere(rt: HostRuntime) -> Result<(), Fail> {
    let two_turns: State = (Running, &[2, 1], &[1, -2, -1, 1], None);
    let end: State = (Done, &[2, 1, 3], &[1, -2], Some(1));
    for (row, (first, second)) in [(1, 1), (2, 0), (0, 2)].iter().enumerate() {
        let word = word_of(&rt, rt.alloc(), &[-2, -1, 2, 1])?;
        let mut run = begin(&rt, rt.alloc(), word, 1000, 1000)?;
        run.turn(*first);
        assert_eq!(rt; run.turn(*second), Running, "row {row}");
        assert_stands(&rt, &run, two_turns, row, 2);
        assert_eq!(rt; run.turn(u32::MAX), Done, "row {row}");
        assert_stands(&rt, &run, end, row, 3);
    }
    Ok(())
}

#[test]
fn longest_word_without_a_corner_is_done(rt: HostRuntime) -> Result<(), Fail> {
    let mut word = Word::new(rt.alloc());
    for k in 0..100_000_u32 {
        word.push(Letter::new(255, k >= 60_000))?;
    }
    let run = begin(&rt, rt.alloc(), word, 100_000, 100_000)?;
    assert_eq!(rt; run.progress(), Done);
    assert_eq!(rt; run.split(), Some(60_000));
    assert_eq!(rt; run.current_len(), 100_000);
    Ok(())
}

#[test]
fn writes_the_file_of_a_run(rt: HostRuntime) -> Result<(), Fail> {
    let rows: [(&[i32], &str); 4] = [
        (&[-1, 2], "word -1 2\nr 1\nleft 2 1\nright 1 2\n"),
        (
            &[-2, -1, 2, 1],
            "word -2 -1 2 1\nr 2\nr 1\nr 3\nleft 1\nright 2\n",
        ),
        (&[-1, 3], "word -1 3\nr 1\nleft 3\nright 1\n"),
        (&[], "word\nleft\nright\n"),
    ];
    for (row, (numbers, lines)) in rows.into_iter().enumerate() {
        let word = word_of(&rt, rt.alloc(), numbers)?;
        let copy = Word::from_letters(rt.alloc(), word.letters())?;
        let mut run = begin(&rt, rt.alloc(), copy, 9, 9)?;
        assert_eq!(rt; run.turn(9), Done, "row {row}");
        let mut sink = MemSink::new(rt.alloc(), 100, 7, &[])?;
        put_reversal(&mut sink, word.letters(), &run)?;
        let want = format!(in rt.alloc(); "reverse-trace 1\n{lines}end\n")?;
        assert_eq!(rt; sink.bytes(), want.as_bytes(), "row {row}");
    }
    Ok(())
}
