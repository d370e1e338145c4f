use crate::{
    Letter, MAX_LETTERS, Sign, Word, WordErr, first_negative, first_outside, inverse, put_word,
    put_word_line, quotient, read_strict_word, read_word, read_word_field, sign_of,
};
use std::alloc::Global;
use std::test::Fail;
use wb_base::MemSink;

// The strict spelling of a word.
fn spelled(alloc: Global, letters: &[Letter]) -> Result<Vec<u8>, Fail> {
    let mut sink = MemSink::new(alloc, 64, 3, &[])?;
    put_word(&mut sink, letters)?;
    Ok(sink.bytes().to_vec(alloc)?)
}

// The strict spelling of a word that was read, or the text of its fault.
fn answer(alloc: Global, read: Result<Word, WordErr>) -> Result<Vec<u8>, Fail> {
    match read {
        Ok(word) => spelled(alloc, word.letters()),
        Err(error) => Ok(error.to_string(alloc)?.into_bytes()),
    }
}

#[test]
fn reads_numbers_and_answers_the_first_fault(rt: HostRuntime) -> Result<(), Fail> {
    for (line, want) in [
        ("1 -2 3", "1 -2 3"),
        ("", ""),
        ("   ", ""),
        ("  1  2 ", "1 2"),
        ("255 -255", "255 -255"),
        ("02", "no letter at byte 1"),
        ("1 02", "no letter at byte 3"),
        ("-", "no letter at byte 1"),
        ("0", "an index out of range at byte 1"),
        ("-0", "an index out of range at byte 1"),
        ("256", "an index out of range at byte 1"),
        (
            "123456789012345678901234567890",
            "an index out of range at byte 1",
        ),
        ("1 x 300", "no letter at byte 3"),
        ("1 300 x", "an index out of range at byte 3"),
        ("1a", "no letter at byte 1"),
        ("-a", "no letter at byte 1"),
        ("  1 b", "no letter at byte 5"),
        ("\t1", "no letter at byte 1"),
    ] {
        let got = answer(rt.alloc(), read_word(rt.alloc(), line.as_bytes()))?;
        assert_eq!(rt; got.as_slice(), want.as_bytes(), "of {line:?}");
    }
    Ok(())
}

#[test]
fn reads_letters_of_the_alphabet_and_answers_the_first_fault(rt: HostRuntime) -> Result<(), Fail> {
    for (line, want) in [
        ("aB", "1 -2"),
        (" a b ", "1 2"),
        ("  yY   a", "25 -25 1"),
        ("z", "no letter at byte 1"),
        ("Z", "no letter at byte 1"),
        ("ab1", "no letter at byte 3"),
        ("  a Zz", "no letter at byte 5"),
        ("a -2", "no letter at byte 3"),
        ("a\tb", "no letter at byte 2"),
    ] {
        let got = answer(rt.alloc(), read_word(rt.alloc(), line.as_bytes()))?;
        assert_eq!(rt; got.as_slice(), want.as_bytes(), "of {line:?}");
    }
    Ok(())
}

#[test]
fn reads_the_strict_spelling_and_no_other(rt: HostRuntime) -> Result<(), Fail> {
    for (line, want) in [
        ("1 -2 3", "1 -2 3"),
        ("", ""),
        (" ", "no letter at byte 1"),
        (" 1", "no letter at byte 1"),
        ("1 ", "no letter at byte 3"),
        ("1  2", "no letter at byte 3"),
        ("1 256", "an index out of range at byte 3"),
        ("aB", "no letter at byte 1"),
    ] {
        let got = answer(rt.alloc(), read_strict_word(rt.alloc(), line.as_bytes()))?;
        assert_eq!(rt; got.as_slice(), want.as_bytes(), "of {line:?}");
    }
    Ok(())
}

#[test]
fn reads_and_puts_a_word_behind_a_keyword(rt: HostRuntime) -> Result<(), Fail> {
    let alloc = rt.alloc();
    for (behind, want) in [
        ("", ""),
        (" 1 -2", "1 -2"),
        (" ", "no letter at byte 1"),
        ("  1", "no letter at byte 1"),
    ] {
        let got = answer(alloc, read_word_field(alloc, behind.as_bytes()))?;
        assert_eq!(rt; got.as_slice(), want.as_bytes(), "of {behind:?}");
    }
    // As many letters as several chunks have.
    let mut line = Vec::from_slice(alloc, b"left".as_slice())?;
    for _ in 0..100 {
        line.extend_from_slice(b" -255")?;
    }
    let word = read_word_field(alloc, &line[4.min(line.len())..])?;
    line.push(b'\n')?;
    let mut sink = MemSink::new(alloc, 1000, 1000, &[])?;
    put_word_line(&mut sink, b"left", word.letters())?;
    assert_eq!(rt; sink.bytes(), line.as_slice());
    Ok(())
}

#[test]
fn inverts_divides_and_finds_the_first_letters_outside_and_negative(
    rt: HostRuntime,
) -> Result<(), Fail> {
    let alloc = rt.alloc();
    let word = read_word(alloc, b"1 2 -3")?;
    let inverted = inverse(alloc, word.letters())?;
    assert_eq!(rt;
        spelled(alloc, inverted.letters())?.as_slice(),
        b"3 -2 -1".as_slice()
    );
    assert_eq!(rt; first_outside(word.letters(), 3), Some(2));
    assert_eq!(rt; first_outside(word.letters(), 4), None);
    assert_eq!(rt; first_negative(word.letters()), Some(2));
    let left = read_word(alloc, b"1 2")?;
    let right = read_word(alloc, b"2 1")?;
    let divided = quotient(alloc, left.letters(), right.letters())?;
    assert_eq!(rt;
        spelled(alloc, divided.letters())?.as_slice(),
        b"-2 -1 2 1".as_slice()
    );
    Ok(())
}

#[test]
fn answers_the_sign_by_the_least_index(rt: HostRuntime) -> Result<(), Fail> {
    for (line, want) in [
        ("", Sign::Empty),
        ("1 2", Sign::Positive(1)),
        ("-2 3", Sign::Negative(2)),
        ("1 2 -1", Sign::Mixed(1)),
    ] {
        let word = read_word(rt.alloc(), line.as_bytes())?;
        assert_eq!(rt; sign_of(word.letters()), want, "of {line:?}");
    }
    Ok(())
}

#[test]
fn makes_words_of_letters(rt: HostRuntime) -> Result<(), Fail> {
    let alloc = rt.alloc();
    let mut word = Word::from_letters(alloc, &[Letter::new(4, false), Letter::new(300, true)])?;
    word.push(Letter::new(1, false))?;
    assert_eq!(rt;
        spelled(alloc, word.letters())?.as_slice(),
        b"4 -300 1".as_slice()
    );
    Ok(())
}

#[test]
fn reads_a_hundred_thousand_letters_and_no_more(rt: HostRuntime) -> Result<(), Fail> {
    let alloc = rt.alloc();
    for (letter, last, want) in [
        ("1 ", "2", "100001 letters"),
        ("a", "B", "100001 letters"),
        ("1 ", "x", "no letter at byte 200001"),
        ("a", "z", "no letter at byte 100001"),
    ] {
        let mut line = Vec::new(alloc);
        for _ in 0..MAX_LETTERS {
            line.extend_from_slice(letter.as_bytes())?;
        }
        assert_eq!(rt; read_word(alloc, &line)?.letters().len(), MAX_LETTERS);
        line.extend_from_slice(last.as_bytes())?;
        let got = answer(alloc, read_word(alloc, &line))?;
        assert_eq!(rt; got.as_slice(), want.as_bytes(), "with {last:?} at the end");
    }
    Ok(())
}
