// Worked normal forms, pairs of equivalent words, and the refusal of a letter of more strands.
use crate::{NormalErr, NormalForm, law_one_form, normal, put_normal, same};
use braid_word::{Letter, Word, inverse, read_word};
use std::alloc::{AllocError, Global};
use std::test::Fail;
use wb_base::MemSink;

// The normal form of letters on n strands, which the tests know to be few, on 2 to 64 strands.
fn form(alloc: Global, n: u32, letters: &[Letter]) -> Result<NormalForm, NormalErr> {
    if n < 2 || n > 64 || letters.len() > 100_000 {
        return Err(NormalErr::Memory);
    }
    normal(alloc, letters, n)
}

// The normal form of a word on n strands.
fn form_of(alloc: Global, n: u32, line: &[u8]) -> Result<NormalForm, Fail> {
    let word = read_word(alloc, line)?;
    Ok(form(alloc, n, word.letters())?)
}

// The lines of the normal form of a word on n strands.
fn lines(alloc: Global, n: u32, line: &[u8]) -> Result<Vec<u8>, Fail> {
    let found = form_of(alloc, n, line)?;
    let mut sink = MemSink::new(alloc, 64, 3, &[])?;
    put_normal(&mut sink, &found)?;
    Ok(sink.bytes().to_vec(alloc)?)
}

// Whether two words have one normal form on n strands.
fn alike(alloc: Global, n: u32, first: &[u8], second: &[u8]) -> Result<bool, Fail> {
    let (one, other) = (form_of(alloc, n, first)?, form_of(alloc, n, second)?);
    Ok(one.strands() == other.strands() && same(&one, &other))
}

// Adds the generators of the indices from 1 up to one below n.
fn push_rising(word: &mut Word, n: u16) -> Result<(), AllocError> {
    for i in 1..n {
        word.push(Letter::new(i, false))?;
    }
    Ok(())
}

// The half turn of n strands: of 4 strands it is `1 2 3 1 2 1`.
fn half_turn(alloc: Global, n: u16) -> Result<Word, AllocError> {
    let mut word = Word::new(alloc);
    for k in (0..n).rev() {
        push_rising(&mut word, k + 1)?;
    }
    Ok(word)
}

// The place that the first letter of more strands is refused at, and 0 where the word isn't refused for one.
fn refused_at(alloc: Global, n: u32, line: &[u8]) -> Result<u64, Fail> {
    let word = read_word(alloc, line)?;
    match form(alloc, n, word.letters()) {
        Err(NormalErr::Strands { place }) => Ok(place),
        _ => Ok(0),
    }
}

#[test]
fn words_have_their_forms(rt: HostRuntime) -> Result<(), Fail> {
    let alloc = rt.alloc();
    let rows = [
        (3, b"1 2 1".as_slice(), b"delta 1\n".as_slice()),
        (3, b"-1".as_slice(), b"delta -1\nfactor 2 3 1\n".as_slice()),
        (
            3,
            b"1 -2".as_slice(),
            b"delta -1\nfactor 1 3 2\nfactor 3 1 2\n".as_slice(),
        ),
        (3, b"".as_slice(), b"delta 0\n".as_slice()),
        (
            3,
            b"1 2 1 1 2 1 1".as_slice(),
            b"delta 2\nfactor 2 1 3\n".as_slice(),
        ),
        (2, b"-1 -1 1".as_slice(), b"delta -1\n".as_slice()),
        (
            4,
            b"1 1 2 3 1 2 1".as_slice(),
            b"delta 1\nfactor 1 2 4 3\n".as_slice(),
        ),
    ];
    for (n, word, text) in rows {
        assert_eq!(rt; lines(alloc, n, word)?.as_slice(), text);
    }
    Ok(())
}

#[test]
fn equivalent_words_have_one_form_and_others_have_two(rt: HostRuntime) -> Result<(), Fail> {
    law_one_form();
    let alloc = rt.alloc();
    let rows = [
        (
            3,
            b"1 2 1 1 2 1 1".as_slice(),
            b"1 1 2 1 1 2 1".as_slice(),
            true,
        ),
        (3, b"1 2".as_slice(), b"2 1".as_slice(), false),
        (4, b"1 3".as_slice(), b"3 1".as_slice(), true),
        (2, b"1 1".as_slice(), b"1".as_slice(), false),
        (64, b"63 62 63".as_slice(), b"62 63 62".as_slice(), true),
        (64, b"1 -63 -1".as_slice(), b"-63".as_slice(), true),
        (64, b"63".as_slice(), b"-63".as_slice(), false),
    ];
    for (n, first, second, alike_here) in rows {
        assert_eq!(rt; alike(alloc, n, first, second)?, alike_here);
    }
    Ok(())
}

#[test]
fn the_half_turn_and_its_inverse_are_powers_alone(rt: HostRuntime) -> Result<(), Fail> {
    let alloc = rt.alloc();
    for n in [2, 3, 16, 17, 64] {
        let word = half_turn(alloc, n)?;
        let back = inverse(alloc, word.letters())?;
        let turn = form(alloc, u32::from(n), word.letters())?;
        let turned_back = form(alloc, u32::from(n), back.letters())?;
        assert_eq!(rt; (turn.delta(), turn.factor_count()), (1, 0));
        assert_eq!(rt; (turned_back.delta(), turned_back.factor_count()), (-1, 0));
    }
    Ok(())
}

#[test]
fn a_letter_of_64_strands_crosses_its_two(rt: HostRuntime) -> Result<(), Fail> {
    let alloc = rt.alloc();
    // At the places 63 and 64 the arrangement of `63` has 64 and 63, and that of `-63` the half turn's
    // exchanged.
    for (word, power, at_63, at_64) in [(b"63".as_slice(), 0, 64, 63), (b"-63", -1, 1, 2)] {
        let found = form_of(alloc, 64, word)?;
        assert_eq!(rt; (found.delta(), found.factor_count()), (power, 1));
        if let Some(factor) = found.factor_at(0) {
            let strands = factor.strands();
            assert_eq!(rt; strands, 64);
            assert_eq!(rt;
                (factor.at(strands - 1), factor.at(strands)),
                (at_63, at_64)
            );
        }
        assert!(rt; found.factor_at(1).is_none());
    }
    Ok(())
}

#[test]
fn the_first_letter_of_more_strands_is_refused(rt: HostRuntime) -> Result<(), Fail> {
    let alloc = rt.alloc();
    let rows = [
        (3, b"3".as_slice(), 1),
        (3, b"1 1 -3".as_slice(), 3),
        (2, b"1 2 5".as_slice(), 2),
        (64, b"63 -64 65".as_slice(), 2),
        (64, b"63 1".as_slice(), 0),
    ];
    for (n, word, place) in rows {
        assert_eq!(rt; refused_at(alloc, n, word)?, place);
    }
    Ok(())
}
