// Worked common divisors, and each refusal of two words.
use crate::{CommonDivisor, GcdErr, gcd, law_greatest};
use braid_word::{Letter, Word, put_word, read_word};
use std::alloc::Global;
use std::test::Fail;
use wb_base::{MemSink, Sink, give_all};

// The common divisor of two words on n strands, which the tests know to be words of few letters on 2 to 64.
fn divided(alloc: Global, n: u32, u: &[Letter], v: &[Letter]) -> Result<CommonDivisor, GcdErr> {
    if n < 2 || n > 64 || u.len() > 100_000 || v.len() > 100_000 {
        return Err(GcdErr::Memory);
    }
    gcd(alloc, u, v, n)
}

// The divisor and what is left of the first and of the second word, with ` / ` between them, or the text of
// the refusal.
fn answer(alloc: Global, n: u32, u: &[Letter], v: &[Letter]) -> Result<Vec<u8>, Fail> {
    match divided(alloc, n, u, v) {
        Ok(found) => {
            let mut sink = MemSink::new(alloc, 64, 3, &[])?;
            put_word(&mut sink, found.divisor())?;
            give_all(&mut sink, b" / ")?;
            put_word(&mut sink, found.left())?;
            give_all(&mut sink, b" / ")?;
            put_word(&mut sink, found.right())?;
            Ok(sink.bytes().to_vec(alloc)?)
        }
        Err(error) => Ok(error.to_string(alloc)?.into_bytes()),
    }
}

// The same of two lines.
fn answer_of(alloc: Global, n: u32, first: &[u8], second: &[u8]) -> Result<Vec<u8>, Fail> {
    let (u, v) = (read_word(alloc, first)?, read_word(alloc, second)?);
    answer(alloc, n, u.letters(), v.letters())
}

// A word of so many letters `1`.
fn ones(alloc: Global, count: usize) -> Result<Word, Fail> {
    let mut word = Word::new(alloc);
    for _ in 0..count {
        word.push(Letter::new(1, false))?;
    }
    Ok(word)
}

#[test]
fn words_have_their_common_divisors(rt: HostRuntime) -> Result<(), Fail> {
    law_greatest();
    for (n, first, second, want) in [
        (3, "1 2", "1 2 1", "1 2 /  / 1"),
        (3, "1 1", "2 2", " / 1 1 / 2 2"),
        (3, "2 1 2 1", "1 2 1 1", "1 2 1 1 /  / "),
        (3, "", "1 2", " /  / 1 2"),
        (3, "2 1 2", "1", "1 / 2 1 / "),
        (4, "1 3 2", "3 1 3", "1 3 / 2 / 3"),
        (4, "1 3 1 3", "1 1", "1 1 / 3 3 / "),
        (64, "63 62 63 1", "62 63 62", "62 63 62 / 1 / "),
    ] {
        let got = answer_of(rt.alloc(), n, first.as_bytes(), second.as_bytes())?;
        assert_eq!(rt;
            got.as_slice(),
            want.as_bytes(),
            "of {first:?} and {second:?}"
        );
    }
    Ok(())
}

#[test]
fn the_first_fault_of_two_words_is_answered(rt: HostRuntime) -> Result<(), Fail> {
    for (n, first, second, want) in [
        (3, "1 -2", "1", "the letter at place 2 is an inverse one"),
        (3, "1", "1 1 -1", "the letter at place 3 is an inverse one"),
        (3, "-1", "1 -2", "the letter at place 1 is an inverse one"),
        (
            3,
            "1 3",
            "4",
            "the letter at place 2 has too great an index",
        ),
        (
            3,
            "-1",
            "1 9",
            "the letter at place 2 has too great an index",
        ),
    ] {
        let got = answer_of(rt.alloc(), n, first.as_bytes(), second.as_bytes())?;
        assert_eq!(rt;
            got.as_slice(),
            want.as_bytes(),
            "of {first:?} and {second:?}"
        );
    }
    Ok(())
}

#[test]
fn words_of_more_than_2000_letters_are_refused(rt: HostRuntime) -> Result<(), Fail> {
    let alloc = rt.alloc();
    let (empty, most) = (Word::new(alloc), ones(alloc, 2000)?);
    let (long, longer) = (ones(alloc, 2001)?, ones(alloc, 2002)?);
    let first = answer(alloc, 2, long.letters(), empty.letters())?;
    assert_eq!(rt; first.as_slice(), b"2001 letters are too many".as_slice());
    let second = answer(alloc, 2, most.letters(), longer.letters())?;
    assert_eq!(rt; second.as_slice(), b"2002 letters are too many".as_slice());
    let both = answer(alloc, 2, longer.letters(), long.letters())?;
    assert_eq!(rt; both.as_slice(), b"2002 letters are too many".as_slice());
    if let Ok(found) = divided(alloc, 2, most.letters(), most.letters()) {
        assert_eq!(rt; found.divisor().len(), 2000);
        assert_eq!(rt; (found.left().len(), found.right().len()), (0, 0));
    } else {
        assert!(rt; false);
    }
    Ok(())
}
