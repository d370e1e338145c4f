ghost use Rattle.std.specs.Prelude.{◌≤◌};

use crate::{GapWord, MAX_ROOM};
use std::alloc::{AllocError, Global};
use std::process::Abort;
use std::test::Fail;

// A call on a buffer.
#[derive(Clone, Copy, Debug)]
enum Call {
    PushLeft(u32),
    PushRight(u32),
    PopLeft,
    PopRight,
    StepLeft,
    StepRight,
    RemoveLeft(usize),
    MoveTo(usize),
}

// A call, its answer, both lists after it, and the spare room.
type Step<'a> = (Call, Option<u32>, &'a [u32], &'a [u32], usize);

// Makes a call. The answer is the item that was taken out, or 1 and 0 for true and false.
fn perform(rt: &impl Abort, word: &mut GapWord<u32>, call: Call) -> Option<u32> {
    match call {
        Call::PushLeft(item) => {
            assert!(rt; word.spare() > 0);
            word.push_left(item);
            None
        }
        Call::PushRight(item) => {
            assert!(rt; word.spare() > 0);
            word.push_right(item);
            None
        }
        Call::PopLeft => word.pop_left(),
        Call::PopRight => word.pop_right(),
        Call::StepLeft => Some(u32::from(word.step_left())),
        Call::StepRight => Some(u32::from(word.step_right())),
        Call::RemoveLeft(k) => {
            assert!(rt; k < word.left_len());
            word.remove_left(k);
            None
        }
        Call::MoveTo(k) => {
            assert!(rt; k <= word.left_len() + word.right_len());
            word.move_to(k);
            None
        }
    }
}

// Asserts what a buffer holds. The row and the call are for the message.
fn assert_holds(
    rt: &impl Abort,
    word: &GapWord<u32>,
    left: &[u32],
    right: &[u32],
    row: usize,
    call: usize,
) {
    assert_eq!(rt; word.left_len(), left.len(), "row {row}, call {call}");
    assert_eq!(rt; word.right_len(), right.len(), "row {row}, call {call}");
    for (k, item) in left.iter().enumerate() {
        assert_eq!(rt;
            word.left_at(k),
            Some(*item),
            "row {row}, call {call}, left {k}"
        );
    }
    for (k, item) in right.iter().enumerate() {
        assert_eq!(rt;
            word.right_at(k),
            Some(*item),
            "row {row}, call {call}, right {k}"
        );
    }
    assert_eq!(rt; word.left_at(left.len()), None, "row {row}, call {call}");
    assert_eq!(rt; word.right_at(right.len()), None, "row {row}, call {call}");
}

// Makes the calls of each row on a buffer of its own, and asserts what each leaves.
fn assert_rows(rt: &impl Abort, alloc: Global, rows: &[(usize, &[Step])]) -> Result<(), Fail> {
    for (row, (room, steps)) in rows.iter().enumerate() {
        assert!(rt; *room <= MAX_ROOM);
        let mut word = GapWord::with_capacity(alloc, *room)?;
        for (call, (made, answer, left, right, spare)) in steps.iter().enumerate() {
            assert_eq!(rt;
                perform(rt, &mut word, *made),
                *answer,
                "row {row}, call {call}"
            );
            assert_holds(rt, &word, left, right, row, call);
            assert_eq!(rt; word.spare(), *spare, "row {row}, call {call}");
        }
    }
    Ok(())
}

#[test]
fn each_call_does_its_list_operation(rt: HostRuntime) -> Result<(), Fail> {
    let rows: [(usize, &[Step]); 3] = [
        (
            3,
            &[
                (Call::PushLeft(1), None, &[1], &[], 2),
                (Call::PushLeft(2), None, &[1, 2], &[], 1),
                (Call::PushRight(3), None, &[1, 2], &[3], 0),
                (Call::StepLeft, Some(1), &[1], &[2, 3], 0),
                (Call::StepRight, Some(1), &[1, 2], &[3], 0),
                (Call::PopRight, Some(3), &[1, 2], &[], 1),
                (Call::StepRight, Some(0), &[1, 2], &[], 1),
                (Call::PopLeft, Some(2), &[1], &[], 2),
            ],
        ),
        (
            0,
            &[
                (Call::PopLeft, None, &[], &[], 0),
                (Call::PopRight, None, &[], &[], 0),
                (Call::StepLeft, Some(0), &[], &[], 0),
                (Call::StepRight, Some(0), &[], &[], 0),
                (Call::MoveTo(0), None, &[], &[], 0),
            ],
        ),
        (
            5,
            &[
                (Call::PushLeft(1), None, &[1], &[], 4),
                (Call::PushLeft(2), None, &[1, 2], &[], 3),
                (Call::PushLeft(3), None, &[1, 2, 3], &[], 2),
                (Call::PushLeft(4), None, &[1, 2, 3, 4], &[], 1),
                (Call::RemoveLeft(1), None, &[1, 3, 4], &[], 2),
                (Call::PushLeft(5), None, &[1, 3, 4, 5], &[], 1),
                (Call::RemoveLeft(3), None, &[1, 3, 4], &[], 2),
                (Call::RemoveLeft(0), None, &[3, 4], &[], 3),
                (Call::MoveTo(0), None, &[], &[3, 4], 3),
                (Call::MoveTo(1), None, &[3], &[4], 3),
            ],
        ),
    ];
    assert_rows(&rt, rt.alloc(), &rows)
}

#[test]
fn the_hole_moves_and_closes(rt: HostRuntime) -> Result<(), Fail> {
    let rows: [(usize, &[Step]); 3] = [
        // The row is full but for the hole, which a push on either side closes.
        (
            4,
            &[
                (Call::PushLeft(1), None, &[1], &[], 3),
                (Call::PushLeft(2), None, &[1, 2], &[], 2),
                (Call::PushLeft(3), None, &[1, 2, 3], &[], 1),
                (Call::PushLeft(4), None, &[1, 2, 3, 4], &[], 0),
                (Call::RemoveLeft(1), None, &[1, 3, 4], &[], 1),
                (Call::PushLeft(5), None, &[1, 3, 4, 5], &[], 0),
                (Call::RemoveLeft(2), None, &[1, 3, 5], &[], 1),
                (Call::PushRight(6), None, &[1, 3, 5], &[6], 0),
                (Call::RemoveLeft(0), None, &[3, 5], &[6], 1),
                (Call::StepLeft, Some(1), &[3], &[5, 6], 1),
                (Call::StepRight, Some(1), &[3, 5], &[6], 1),
                (Call::PushRight(7), None, &[3, 5], &[7, 6], 0),
                (Call::PopLeft, Some(5), &[3], &[7, 6], 1),
            ],
        ),
        // An item is removed above the hole, below it, and at each of its edges.
        (
            6,
            &[
                (Call::PushLeft(1), None, &[1], &[], 5),
                (Call::PushLeft(2), None, &[1, 2], &[], 4),
                (Call::PushLeft(3), None, &[1, 2, 3], &[], 3),
                (Call::PushLeft(4), None, &[1, 2, 3, 4], &[], 2),
                (Call::PushLeft(5), None, &[1, 2, 3, 4, 5], &[], 1),
                (Call::PushLeft(6), None, &[1, 2, 3, 4, 5, 6], &[], 0),
                (Call::RemoveLeft(3), None, &[1, 2, 3, 5, 6], &[], 1),
                (Call::RemoveLeft(4), None, &[1, 2, 3, 5], &[], 2),
                (Call::RemoveLeft(1), None, &[1, 3, 5], &[], 3),
                (Call::RemoveLeft(1), None, &[1, 5], &[], 4),
                (Call::RemoveLeft(0), None, &[5], &[], 5),
                (Call::PopLeft, Some(5), &[], &[], 6),
                (Call::PopLeft, None, &[], &[], 6),
            ],
        ),
        // The first push is on the right. The cursor moves past left, above the hole, and below it.
        (
            7,
            &[
                (Call::PushRight(3), None, &[], &[3], 6),
                (Call::PushRight(2), None, &[], &[2, 3], 5),
                (Call::PushRight(1), None, &[], &[1, 2, 3], 4),
                (Call::PushLeft(4), None, &[4], &[1, 2, 3], 3),
                (Call::PushLeft(5), None, &[4, 5], &[1, 2, 3], 2),
                (Call::PushLeft(6), None, &[4, 5, 6], &[1, 2, 3], 1),
                (Call::PushLeft(7), None, &[4, 5, 6, 7], &[1, 2, 3], 0),
                (Call::MoveTo(5), None, &[4, 5, 6, 7, 1], &[2, 3], 0),
                (Call::RemoveLeft(2), None, &[4, 5, 7, 1], &[2, 3], 1),
                (Call::MoveTo(3), None, &[4, 5, 7], &[1, 2, 3], 1),
                (Call::MoveTo(1), None, &[4], &[5, 7, 1, 2, 3], 1),
                (Call::MoveTo(6), None, &[4, 5, 7, 1, 2, 3], &[], 1),
                (Call::MoveTo(6), None, &[4, 5, 7, 1, 2, 3], &[], 1),
                (Call::MoveTo(0), None, &[], &[4, 5, 7, 1, 2, 3], 1),
                (Call::StepLeft, Some(0), &[], &[4, 5, 7, 1, 2, 3], 1),
                (Call::PopRight, Some(4), &[], &[5, 7, 1, 2, 3], 2),
            ],
        ),
    ];
    assert_rows(&rt, rt.alloc(), &rows)
}

// A number below a bound, from a state that goes on.
fn below(state: &mut u64, bound: usize) -> usize
    ensures { result ≤ bound }
{
    *state = state
        .wrapping_mul(6364136223846793005)
        .wrapping_add(1442695040888963407);
    let bits = (*state >> 33) as usize;
    if bound == 0 { 0 } else { bits % bound }
}

// One call that lists like these allow, where so many more items have room.
fn pick(state: &mut u64, left: usize, right: usize, spare: usize) -> Call {
    let item = below(state, 1000) as u32;
    match below(state, 8) {
        0 | 1 if spare > 0 => Call::PushLeft(item),
        2 if spare > 0 => Call::PushRight(item),
        3 => Call::PopLeft,
        4 => Call::StepLeft,
        5 => Call::StepRight,
        6 if left > 0 => Call::RemoveLeft(below(state, left)),
        7 => Call::MoveTo(below(state, left.saturating_add(right))),
        _ => Call::PopRight,
    }
}

// What a call makes of two plain lists.
fn perform_plainly(
    rt: &impl Abort,
    left: &mut Vec<u32>,
    right: &mut Vec<u32>,
    call: Call,
) -> Result<(), Fail> {
    match call {
        Call::PushLeft(item) => left.push(item)?,
        Call::PushRight(item) => right.insert(0, item)?,
        Call::PopLeft => {
            let _item = left.pop();
        }
        Call::PopRight => {
            if !right.is_empty() {
                let _item = right.remove(0);
            }
        }
        Call::StepLeft => {
            if let Some(item) = left.pop() {
                right.insert(0, item)?;
            }
        }
        Call::StepRight => {
            if !right.is_empty() {
                let item = right.remove(0);
                left.push(item)?;
            }
        }
        Call::RemoveLeft(k) => {
            assert!(rt; k < left.len());
            let _item = left.remove(k);
        }
        Call::MoveTo(k) => {
            for item in right.iter() {
                left.push(*item)?;
            }
            right.clear();
            for place in k..left.len() {
                right.push(left[place])?;
            }
            left.truncate(k);
        }
    }
    Ok(())
}

#[test]
fn calls_in_any_order_agree_with_plain_lists(rt: HostRuntime) -> Result<(), Fail> {
    for row in 0..120_usize {
        let mut state = row as u64;
        let room = row % 9;
        let mut word = GapWord::with_capacity(rt.alloc(), room)?;
        let mut left = Vec::new(rt.alloc());
        let mut right = Vec::new(rt.alloc());
        for call in 0..40_usize {
            let made = pick(&mut state, word.left_len(), word.right_len(), word.spare());
            perform(&rt, &mut word, made);
            perform_plainly(&rt, &mut left, &mut right, made)?;
            assert_holds(&rt, &word, &left, &right, row, call);
        }
    }
    Ok(())
}

#[test]
fn debug_shows_the_lengths_and_the_room(rt: HostRuntime) -> Result<(), Fail> {
    let mut word = GapWord::with_capacity(rt.alloc(), 3)?;
    assert!(rt; word.spare() > 0);
    word.push_left(7_u32);
    let text = format!(in rt.alloc(); "{word:?}")?;
    assert_eq!(rt;
        text.as_str(),
        "GapWord { left_len: 1, right_len: 0, spare: 2 }"
    );
    Ok(())
}
