// Worked brackets, and the two refusals at their limits.
use crate::{BracketErr, bracket, law_distributive, law_less, shift};
use braid_word::{Letter, MAX_INDEX, MAX_LETTERS, Word, read_word};
use std::alloc::Global;
use std::test::Fail;

// The bracket of words whose lengths no proof knows.
fn bracket_of(alloc: Global, a: &[Letter], b: &[Letter]) -> Result<Word, BracketErr> {
    if a.len() > MAX_LETTERS || b.len() > MAX_LETTERS {
        return Err(BracketErr::TooLong);
    }
    bracket(alloc, a, b)
}

#[test]
fn shifts_each_index(rt: HostRuntime) -> Result<(), Fail> {
    let alloc = rt.alloc();
    let word = [Letter::new(1, false), Letter::new(254, true)];
    let want = [Letter::new(2, false), Letter::new(255, true)];
    assert_eq!(rt; shift(alloc, &word)?.letters(), want.as_slice());
    Ok(())
}

#[test]
fn brackets_of_small_words(rt: HostRuntime) -> Result<(), Fail> {
    let alloc = rt.alloc();
    let cases: [(&[u8], &[u8], &[u8]); 5] = [
        (b"", b"", b"1"),
        (b"1", b"", b"1 1 -2"),
        (b"", b"1", b"2 1"),
        (b"1", b"2", b"1 3 1 -2"),
        (b"1 -2", b"1 1", b"1 -2 2 2 1 3 -2"),
    ];
    for (a, b, want) in cases {
        let (a, b, want) = (
            read_word(alloc, a)?,
            read_word(alloc, b)?,
            read_word(alloc, want)?,
        );
        law_less(a.letters(), b.letters());
        law_distributive(a.letters(), b.letters(), a.letters());
        let word = bracket_of(alloc, a.letters(), b.letters())?;
        assert_eq!(rt; word.letters(), want.letters());
    }
    Ok(())
}

#[test]
fn refuses_a_long_bracket_before_a_high_index(rt: HostRuntime) -> Result<(), Fail> {
    let alloc = rt.alloc();
    let high = [Letter::new(MAX_INDEX, false)];
    let low = [Letter::new(MAX_INDEX - 1, true)];
    let most = vec![in alloc; low[0]; MAX_LETTERS - 1]?;
    let long = vec![in alloc; high[0]; MAX_LETTERS]?;
    let cases: [(&[Letter], &[Letter], Option<BracketErr>); 6] = [
        (&low, &low, None),
        (&high, &low, Some(BracketErr::Index)),
        (&low, &high, Some(BracketErr::Index)),
        (&[], &most, None),
        (&low, &most, Some(BracketErr::TooLong)),
        (&[], &long, Some(BracketErr::TooLong)),
    ];
    for (a, b, want) in cases {
        assert_eq!(rt; bracket_of(alloc, a, b).err(), want);
    }
    Ok(())
}
