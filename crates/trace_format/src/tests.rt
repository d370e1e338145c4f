ghost use Rattle.std.specs.Prelude.{[], ◌∷◌, true, false};
ghost use Rattle.braid_word.specs.Words.{letter};

use crate::{Kind, Verdict, kind_of, put_term_trace, put_trace, read_line, verdict_of};
use braid_word::{Account, Letter, MAX_INDEX, MAX_LETTERS, Sign, read_strict_word};
use std::alloc::Global;
use std::test::Fail;
use wb_base::MemSink;

// What a line says, or the text of its fault.
fn answer(alloc: Global, line: &[u8]) -> Result<String, Fail> {
    match read_line(alloc, line) {
        Ok(line) => Ok(format!(in alloc; "{line:?}")?),
        Err(error) => Ok(error.to_string(alloc)?),
    }
}

#[test]
fn names_the_kind_of_a_line_by_its_first_word(rt: HostRuntime) -> Result<(), Fail> {
    for (line, want) in [
        ("braid-trace 1", Some(Kind::Start)),
        ("left", Some(Kind::Left)),
        ("right x", Some(Kind::Right)),
        ("left-term", Some(Kind::LeftTerm)),
        ("left-term x", Some(Kind::LeftTerm)),
        ("right-term 1", Some(Kind::RightTerm)),
        ("h  ", Some(Kind::Step)),
        ("c", Some(Kind::Step)),
        ("s 1", Some(Kind::Step)),
        ("d", Some(Kind::Step)),
        ("i x", Some(Kind::Step)),
        ("verdict", Some(Kind::Verdict)),
        ("witness 1", Some(Kind::Witness)),
        ("end 1", Some(Kind::Finish)),
        ("", None),
        (" left", None),
        ("leftover", None),
        ("left-", None),
        ("left-terms x", None),
        ("Left 1", None),
        ("b 1", None),
        ("ii 1 1", None),
    ] {
        assert_eq!(rt; kind_of(line.as_bytes()), want, "of {line:?}");
    }
    Ok(())
}

#[test]
fn reads_the_text_of_a_line_and_nothing_else(rt: HostRuntime) -> Result<(), Fail> {
    for (line, want) in [
        ("braid-trace 1", "Start"),
        ("braid-trace 2", "not of the form"),
        ("left", "Left(Word { letters: [] })"),
        ("left ", "not of the form"),
        (
            "right -2",
            "Right(Word { letters: [Letter { index: 2, negative: true }] })",
        ),
        ("right 1  2", "not of the form"),
        ("witness 256", "not of the form"),
        ("h 2 4", "Step(Handle(2, 4))"),
        ("h 4294967295 1", "Step(Handle(4294967295, 1))"),
        ("h 4294967296 1", "not of the form"),
        ("h 18446744073709551616 1", "not of the form"),
        ("h 0 4", "not of the form"),
        ("h 02 4", "not of the form"),
        ("h 2", "not of the form"),
        ("h 2 4 ", "not of the form"),
        ("c 2", "Step(Commute(2))"),
        ("s 4294967295", "Step(Swap(4294967295))"),
        ("d 1", "Step(Delete(1))"),
        (
            "i 1 -3",
            "Step(Insert(1, Letter { index: 3, negative: true }))",
        ),
        (
            "i 4294967295 255",
            "Step(Insert(4294967295, Letter { index: 255, negative: false }))",
        ),
        ("c 0", "not of the form"),
        ("c 1 2", "not of the form"),
        ("s", "not of the form"),
        ("s 4294967296", "not of the form"),
        ("d 01", "not of the form"),
        ("d 1 ", "not of the form"),
        ("i 1", "not of the form"),
        ("i 1 ", "not of the form"),
        ("i 1 256", "not of the form"),
        ("i 1 0", "not of the form"),
        ("i 1 1 2", "not of the form"),
        ("i 1  1", "not of the form"),
        ("i 0 1", "not of the form"),
        ("i 1x1", "not of the form"),
        ("verdict equal", "Verdict(Equal)"),
        ("verdict lesser", "not of the form"),
        ("end", "Finish"),
        ("end ", "not of the form"),
        ("ends", "no keyword"),
    ] {
        let got = answer(rt.alloc(), line.as_bytes())?;
        assert_eq!(rt; got.as_str(), want, "of {line:?}");
    }
    Ok(())
}

#[test]
fn reads_a_term_in_its_strict_text_and_no_other(rt: HostRuntime) -> Result<(), Fail> {
    for (line, want) in [
        ("left-term x", "LeftTerm(X)"),
        (
            "right-term (x*(x*x))",
            "RightTerm(Product(X, Product(X, X)))",
        ),
        ("left-term", "not of the form"),
        ("left-term ", "not of the form"),
        ("left-term  x", "not of the form"),
        ("left-term x*x", "not of the form"),
        ("left-term (x*x) ", "not of the form"),
        ("right-term (x *x)", "not of the form"),
        ("left-term ((x*x)*x", "not of the form"),
        ("left-term a", "not of the form"),
        ("right-term 1", "not of the form"),
    ] {
        let got = answer(rt.alloc(), line.as_bytes())?;
        assert_eq!(rt; got.as_str(), want, "of {line:?}");
    }
    Ok(())
}

#[test]
fn refuses_a_word_of_too_many_letters(rt: HostRuntime) -> Result<(), Fail> {
    let alloc = rt.alloc();
    let mut line = Vec::from_slice(alloc, b"left")?;
    let mut step = Vec::from_slice(alloc, b"i 1")?;
    for _ in 0..=MAX_LETTERS {
        line.extend_from_slice(b" 1")?;
        step.extend_from_slice(b" 1")?;
    }
    assert_eq!(rt; answer(alloc, &line)?.as_str(), "too long");
    assert_eq!(rt; answer(alloc, &step)?.as_str(), "not of the form");
    line.extend_from_slice(b" 0")?;
    assert_eq!(rt; answer(alloc, &line)?.as_str(), "not of the form");
    Ok(())
}

// A line with the term of this height whose left parts are all the variable.
fn high_term(alloc: Global, height: u16) -> Result<Vec<u8>, Fail> {
    let mut line = Vec::from_slice(alloc, b"left-term ")?;
    for _ in 0..height {
        line.extend_from_slice(b"(x*")?;
    }
    line.push(b'x')?;
    for _ in 0..height {
        line.push(b')')?;
    }
    Ok(line)
}

// A line with the term of 2^17 - 1 products whose leaves are all at one height.
fn broad_term(alloc: Global) -> Result<Vec<u8>, Fail> {
    let mut term = Vec::from_slice(alloc, b"x")?;
    for _ in 0..17 {
        let mut square = Vec::from_slice(alloc, b"(")?;
        square.extend_from_slice(&term)?;
        square.push(b'*')?;
        square.extend_from_slice(&term)?;
        square.push(b')')?;
        term = square;
    }
    let mut line = Vec::from_slice(alloc, b"right-term ")?;
    line.extend_from_slice(&term)?;
    Ok(line)
}

#[test]
fn refuses_a_term_that_is_too_large(rt: HostRuntime) -> Result<(), Fail> {
    let alloc = rt.alloc();
    assert!(rt; read_line(alloc, &high_term(alloc, MAX_INDEX)?).is_ok());
    let mut high = high_term(alloc, MAX_INDEX + 1)?;
    assert_eq!(rt; answer(alloc, &high)?.as_str(), "too long");
    high.push(b')')?;
    assert_eq!(rt; answer(alloc, &high)?.as_str(), "not of the form");
    assert_eq!(rt; answer(alloc, &broad_term(alloc)?)?.as_str(), "too long");
    Ok(())
}

// A run that reduced the handle of `1 2 -1`, and has reached `-2 1 2`.
struct OneStep;

impl Account for OneStep {
    ghost steps = { λ _. (1, 3) ∷ [] };

    ghost current = { λ _. letter 2 true ∷ letter 1 false ∷ letter 2 false ∷ [] };

    fn steps_done(&self) -> u32 {
        1
    }

    fn step_at(&self, _k: u32) -> (u32, u32) {
        (1, 3)
    }

    fn current_len(&self) -> u32 {
        3
    }

    fn current_at(&self, k: u32) -> Letter {
        match k {
            0 => Letter::new(2, true),
            1 => Letter::new(1, false),
            _ => Letter::new(2, false),
        }
    }
}

#[test]
fn writes_a_trace_file(rt: HostRuntime) -> Result<(), Fail> {
    let alloc = rt.alloc();
    let right = read_strict_word(alloc, b"1 2 -1")?;
    let mut sink = MemSink::new(alloc, 128, 5, &[])?;
    put_trace(&mut sink, &[], right.letters(), &OneStep, Verdict::Less)?;
    let want = "braid-trace 1\nleft\nright 1 2 -1\nh 1 3\nverdict less\nwitness -2 1 2\nend\n";
    assert_eq!(rt; sink.bytes(), want.as_bytes());
    Ok(())
}

#[test]
fn writes_a_trace_file_of_terms(rt: HostRuntime) -> Result<(), Fail> {
    let mut sink = MemSink::new(rt.alloc(), 160, 7, &[])?;
    let (left, right) = (b"(x*(x*x))", b"((x*x)*(x*x))");
    put_term_trace(&mut sink, left, right, &OneStep, Verdict::Less)?;
    let head = "braid-trace 1\nleft-term (x*(x*x))\nright-term ((x*x)*(x*x))\n";
    let body = "h 1 3\nverdict less\nwitness -2 1 2\nend\n";
    let want = format!(in rt.alloc(); "{head}{body}")?;
    assert_eq!(rt; sink.bytes(), want.as_bytes());
    Ok(())
}

#[test]
fn gives_the_verdict_of_a_sign(rt: HostRuntime) -> Result<(), Fail> {
    for (sign, want) in [
        (Sign::Positive(2), Some(Verdict::Less)),
        (Sign::Empty, Some(Verdict::Equal)),
        (Sign::Negative(1), Some(Verdict::Greater)),
        (Sign::Mixed(1), None),
    ] {
        assert_eq!(rt; verdict_of(sign), want, "of {sign:?}");
    }
    Ok(())
}
