ghost use Rattle.std.specs.Prelude.{◌≡◌, IfSome};
ghost use Rattle.handle_find.specs.Scans.{IsHandleAtCursor};

use crate::handle::{is_handle, leftmost};
use crate::rewrite::{reduct, reduct_len};
use crate::scan::{Advance, Scan, put_word};
use crate::walk::letter_at;
use braid_word::{Letter, Word};
use gap_word::GapWord;
use std::alloc::Global;
use std::process::Abort;
use std::test::Fail;

// The word of some numbers, of which a negative one is an inverse.
fn word_of(rt: &impl Abort, alloc: Global, numbers: &[i32]) -> Result<Word, Fail> {
    let mut word = Word::new(alloc);
    for number in numbers {
        let index = u16::try_from(number.unsigned_abs())?;
        assert!(rt; 1 <= index && index < 65535);
        word.push(Letter::new(index, *number < 0))?;
    }
    Ok(word)
}

#[test]
fn leftmost_handle_ends_first(rt: HostRuntime) -> Result<(), Fail> {
    // The word, its leftmost handle, and two places with whether they are a handle. Places count from 0.
    let rows: [(&[i32], Option<(usize, usize)>, (usize, usize), bool); 8] = [
        (&[1, 2, -2, -1], Some((1, 2)), (0, 3), true),
        (&[-2, -1, 2, 1], Some((1, 3)), (0, 2), false),
        (&[1, 3, -1, 1], Some((0, 2)), (2, 3), true),
        (&[1, -2, 1], None, (0, 2), false),
        (&[2, 1, -2], None, (0, 2), false),
        (&[1, -1], Some((0, 1)), (1, 0), false),
        (&[1, -1], Some((0, 1)), (0, 2), false),
        (&[], None, (0, 0), false),
    ];
    for (row, (numbers, found, (p, q), is)) in rows.iter().enumerate() {
        let word = word_of(&rt, rt.alloc(), numbers)?;
        assert_eq!(rt; leftmost(word.letters()), *found, "row {row}");
        assert_eq!(rt; is_handle(word.letters(), *p, *q), *is, "row {row}");
    }
    Ok(())
}

#[test]
fn reduct_at_a_handle(rt: HostRuntime) -> Result<(), Fail> {
    // The word, the two places of a handle, counted from 0, and the reduct.
    let rows: [(&[i32], (usize, usize), &[i32]); 9] = [
        (&[-2, -1, 2, 1], (1, 3), &[-2, 2, 1, -2]),
        (&[-2, 2, 1, -2], (0, 1), &[1, -2]),
        (&[1, -2, -1], (0, 2), &[-2, -1, 2]),
        (&[-1, 2, 1], (0, 2), &[2, 1, -2]),
        (&[1, 2, -2, -1], (0, 3), &[-2, 1, 2, -2, -1, 2]),
        (&[1, 3, -1, 1], (0, 2), &[3, 1]),
        (&[4, 1, -1, 5], (1, 2), &[4, 5]),
        (&[1, 2, -3, 2, -1], (0, 4), &[-2, 1, 2, -3, -2, 1, 2]),
        (&[1, -1], (0, 1), &[]),
    ];
    for (row, (numbers, (p, q), expected)) in rows.into_iter().enumerate() {
        let word = word_of(&rt, rt.alloc(), numbers)?;
        let expected = word_of(&rt, rt.alloc(), expected)?;
        assert!(rt; is_handle(word.letters(), p, q), "row {row}");
        assert_eq!(rt;
            reduct_len(word.letters(), p, q),
            expected.letters().len(),
            "row {row}"
        );
        let found = reduct(rt.alloc(), word.letters(), p, q)?;
        assert_eq!(rt; found.letters(), expected.letters(), "row {row}");
    }
    Ok(())
}

// A number below a bound, from a state that goes on.
fn below(state: &mut u64, bound: u64) -> u64 {
    *state = state
        .wrapping_mul(6364136223846793005)
        .wrapping_add(1442695040888963407);
    if bound == 0 {
        0
    } else {
        (*state >> 33) % bound
    }
}

// A word of at most 14 letters on four strands.
fn random_word(alloc: Global, state: &mut u64) -> Result<Word, Fail> {
    let mut word = Word::new(alloc);
    for _ in 0..below(state, 15) {
        let letter = match below(state, 6) {
            0 => Letter::new(1, false),
            1 => Letter::new(1, true),
            2 => Letter::new(2, false),
            3 => Letter::new(2, true),
            4 => Letter::new(3, false),
            _ => Letter::new(3, true),
        };
        word.push(letter)?;
    }
    Ok(word)
}

// The whole word of a scan.
fn letters_of(alloc: Global, scan: &Scan) -> Result<Vec<Letter>, Fail> {
    let mut letters = Vec::new(alloc);
    for k in 0..scan.left_len() {
        if let Some(letter) = scan.left_at(k) {
            letters.push(letter)?;
        }
    }
    for k in 0..scan.right_len() {
        if let Some(letter) = scan.right_at(k) {
            letters.push(letter)?;
        }
    }
    Ok(letters)
}

// Goes on to the next handle, if there is one.
fn seek(scan: &mut Scan) -> Option<usize>
    ensures { IfSome result (λ p. IsHandleAtCursor scan.new p) }
{
    for _ in 0..=scan.right_len() {
        match scan.advance() {
            Advance::End => return None,
            Advance::Closes(start) => return Some(start),
            Advance::Kept => {}
        }
    }
    None
}

// Asserts that a reduction within one letter less than the reduct has changes nothing.
fn assert_refuses(rt: &impl Abort, scan: &mut Scan, start: usize, len: usize, row: usize)
    requires { IsHandleAtCursor scan.old start }
    ensures { scan.new ≡ scan.old }
{
    if len == 0 {
        return;
    }
    assert!(rt; len <= scan.left_len() + scan.right_len() + scan.spare());
    let taken = scan.reduce(start, len - 1);
    assert!(rt; !taken, "row {row}");
}

// Reduces a scan at the handle that it has found, and compares with the reduct of its plain word.
fn assert_reduces(
    rt: &impl Abort,
    alloc: Global,
    scan: &mut Scan,
    start: usize,
    row: usize,
) -> Result<(), Fail>
    requires { IsHandleAtCursor scan.old start }
{
    let word = letters_of(alloc, scan)?;
    let end = scan.left_len();
    assert_eq!(rt; leftmost(&word), Some((start, end)), "row {row}");
    assert!(rt; is_handle(&word, start, end));
    let expected = reduct(alloc, &word, start, end)?;
    let len = expected.letters().len();
    assert_refuses(rt, scan, start, len, row);
    assert!(rt;
        letters_of(alloc, scan)?.as_slice() == word.as_slice(),
        "row {row}"
    );
    assert!(rt; len < scan.left_len() + scan.right_len() + scan.spare());
    let taken = scan.reduce(start, len);
    assert!(rt; taken, "row {row}");
    assert!(rt;
        letters_of(alloc, scan)?.as_slice() == expected.letters(),
        "row {row}"
    );
    Ok(())
}

#[test]
fn scans_agree_with_searches_from_the_front(rt: HostRuntime) -> Result<(), Fail> {
    for row in 0..400_usize {
        let mut state = row as u64;
        let word = random_word(rt.alloc(), &mut state)?;
        assert!(rt; word.letters().len() <= 2000);
        let mut scan = Scan::make(rt.alloc(), word.letters(), 2000)?;
        for _ in 0..40 {
            let Some(start) = seek(&mut scan) else {
                break;
            };
            assert_reduces(&rt, rt.alloc(), &mut scan, start, row)?;
        }
    }
    Ok(())
}

#[test]
fn letters_are_put_read_and_taken_back(rt: HostRuntime) -> Result<(), Fail> {
    let word = word_of(&rt, rt.alloc(), &[1, 2, 3, -1])?;
    let mut letters = GapWord::with_capacity(rt.alloc(), 10)?;
    assert!(rt; word.letters().len() <= letters.spare());
    put_word(&mut letters, word.letters());
    for _ in 0..3 {
        let _ = letters.step_right();
    }
    assert!(rt; letters.left_len() == 3 && letters.right_len() == 1 && letters.spare() == 6);
    let first = letter_at(&letters, 0);
    assert_eq!(rt; first, Letter::new(1, false));
    Ok(())
}
