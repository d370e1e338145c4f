use crate::{CheckErr, Checked, Checker, MAX_LINE, check};
use braid_word::{MAX_LETTERS, read_strict_word};
use std::alloc::Global;
use std::process::Abort;
use std::test::Fail;
use trace_format::Verdict;

// The trace of the leftmost reduction of `1 2` and `2 1`.
const TRACE: &str =
    "braid-trace 1\nleft 1 2\nright 2 1\nh 2 4\nh 1 2\nverdict less\nwitness 1 -2\nend\n";

// A trace of two terms that are one by the law t*(u*v) = (t*u)*(t*v).
const TERMS: &str =
    "braid-trace 1\nleft-term (x*(x*x))\nright-term ((x*x)*(x*x))\nh 1 3\nh 3 4\nh 2 3\nh 1 2\nverdict equal\nwitness\nend\n";

// What a file was found to be: its verdict and its steps, or the line and the cause of its first refusal.
fn text_of(alloc: Global, answer: Result<Checked, CheckErr>) -> Result<String, Fail> {
    match answer {
        Ok(checked) => {
            let (verdict, steps) = (checked.verdict(), checked.steps());
            Ok(format!(in alloc; "accepted {verdict:?} {steps}")?)
        }
        Err(CheckErr::Refused { line, why }) => Ok(format!(in alloc; "refused {line} {why:?}")?),
        Err(CheckErr::Memory) => Ok(String::from_str(alloc, "memory")?),
    }
}

// What a file is.
fn answer(alloc: Global, file: &[u8]) -> Result<String, Fail> {
    text_of(alloc, check(alloc, file))
}

// What a file is whose bytes come in pieces of so many.
fn answer_in_pieces(alloc: Global, file: &[u8], size: usize) -> Result<String, Fail> {
    let mut checker = Checker::begin(alloc)?;
    for piece in file.chunks(size.max(1)) {
        let _ = checker.feed(piece);
    }
    text_of(alloc, checker.finish())
}

// Asserts what a file is, whole and in pieces of 1, 7 and 4,096 bytes.
fn assert_is(rt: &impl Abort, alloc: Global, file: &[u8], want: &str) -> Result<(), Fail> {
    let got = answer(alloc, file)?;
    assert_eq!(rt; got.as_str(), want, "of {} bytes", file.len());
    for size in [1, 7, 4096] {
        let got = answer_in_pieces(alloc, file, size)?;
        assert_eq!(rt;
            got.as_str(),
            want,
            "of {} bytes in pieces of {size}",
            file.len()
        );
    }
    Ok(())
}

#[test]
fn accepts_a_trace_and_nothing_else(rt: HostRuntime) -> Result<(), Fail> {
    let alloc = rt.alloc();
    for (file, want) in [
        (TRACE, "accepted Less 2"),
        (
            "braid-trace 1\nleft 2\nright 1\nverdict less\nwitness -2 1\nend\n",
            "accepted Less 0",
        ),
        (
            "braid-trace 1\nleft\nright\nverdict equal\nwitness\nend\n",
            "accepted Equal 0",
        ),
        (
            "braid-trace 1\nleft 1 2\nright 2 1\nh 2 4\nh 1 2\nverdict greater\nwitness 1 -2\nend\n",
            "refused 7 Sign",
        ),
        (
            "braid-trace 1\nleft 1 2\nright 2 1\nh 2 4\nh 1 2\nverdict less\nwitness 1\nend\n",
            "refused 7 Witness",
        ),
        (
            "braid-trace 1\nleft 1 2\nright 2 1\nh 2 3\nh 1 2\nverdict less\nwitness 1 -2\nend\n",
            "refused 4 Step",
        ),
        (
            "braid-trace 1\nleft 1 2\nright 2 1\nh 02 4\nh 1 2\nverdict less\nwitness 1 -2\nend\n",
            "refused 4 Form",
        ),
        (
            "braid-trace 1\nleft 1 2\nright 2 1\nh 2 4\nh 1 2\nverdict less\nwitness 1 -2\nend\n\n",
            "refused 9 Extra",
        ),
        (
            "braid-trace 1\nleft 1 2\nright 2 1\nh 2 4\nh 1 2\nverdict less\nwitness 1 -2\nend\nx",
            "refused 9 Extra",
        ),
        ("braid-trace 1\nright 1\n", "refused 2 Header"),
        ("braid-trace 1\nleft-terms x\n", "refused 2 Header"),
        ("braid-trace 1\nleft 1\nright 256\n", "refused 3 Form"),
        ("braid-trace 1\nleft 1\nright 1\nend\n", "refused 4 Form"),
        (
            "braid-trace 1\nleft\nright\nverdict equal\nwitness 0\n",
            "refused 5 Form",
        ),
        ("braid-trace 1\nleft \n", "refused 2 Form"),
        ("braid-trace 1\r\n", "refused 1 Header"),
        ("braid-trace 2\n", "refused 1 Header"),
        ("braid-trace 1\nleft 1\nright 1\nh 1 1\n", "refused 4 Step"),
        (
            "braid-trace 1\nleft 1\nright 1\nh 4294967295 4294967295\n",
            "refused 4 Step",
        ),
        (
            "braid-trace 1\nleft 1\nright 1\nh 1 4294967296\n",
            "refused 4 Form",
        ),
        ("braid-trace 1\nleft 1\nright 1\nb 1\n", "refused 4 Form"),
        (
            "braid-trace 1\nleft 1\nright 1\nverdict maybe\n",
            "refused 4 Form",
        ),
        (
            "braid-trace 1\nleft\nright 1 -1\nverdict less\nwitness 1 -1\n",
            "refused 5 Sign",
        ),
        (
            "braid-trace 1\nleft\nright 1\nverdict less\nverdict less\n",
            "refused 5 Form",
        ),
        (
            "braid-trace 1\nleft\nright 1\nverdict less\nwitness 1\nend \n",
            "refused 6 Form",
        ),
    ] {
        assert_is(&rt, alloc, file.as_bytes(), want)?;
    }
    Ok(())
}

#[test]
fn accepts_a_trace_of_two_terms_and_no_mixed_one(rt: HostRuntime) -> Result<(), Fail> {
    let alloc = rt.alloc();
    for (file, want) in [
        (TERMS, "accepted Equal 4"),
        (
            "braid-trace 1\nleft-term x\nright-term (x*x)\nverdict less\nwitness 1\nend\n",
            "accepted Less 0",
        ),
        (
            "braid-trace 1\nleft-term (x*x)\nright-term x\nverdict less\nwitness -1\nend\n",
            "refused 5 Sign",
        ),
        ("braid-trace 1\nleft 1\nright-term x\n", "refused 3 Header"),
        ("braid-trace 1\nleft-term x\nright 1\n", "refused 3 Header"),
        (
            "braid-trace 1\nleft-term x\nleft-term x\n",
            "refused 3 Header",
        ),
        ("braid-trace 1\nright-term x\n", "refused 2 Header"),
        ("braid-trace 1\nleft-term x*x\n", "refused 2 Form"),
        (
            "braid-trace 1\nleft-term x\nright-term x*x\n",
            "refused 3 Form",
        ),
    ] {
        assert_is(&rt, alloc, file.as_bytes(), want)?;
    }
    Ok(())
}

#[test]
fn replays_the_steps_of_any_maker(rt: HostRuntime) -> Result<(), Fail> {
    let alloc = rt.alloc();
    for (words, steps, end, want) in [
        (
            "left 1 2 1\nright 2 1 2\n",
            "s 4\nd 3\nd 2\nd 1\n",
            "verdict equal\nwitness\nend\n",
            "accepted Equal 4",
        ),
        (
            "left 1 3\nright 3 1\n",
            "c 2\nd 1\nd 1\n",
            "verdict equal\nwitness\nend\n",
            "accepted Equal 3",
        ),
        (
            "left\nright 2\n",
            "i 1 3\n",
            "verdict less\nwitness 3 -3 2\nend\n",
            "accepted Less 1",
        ),
        (
            "left\nright 2\n",
            "i 2 -3\n",
            "verdict less\nwitness 2 -3 3\nend\n",
            "accepted Less 1",
        ),
        (
            "left\nright -2 4\n",
            "c 1\ni 3 -1\n",
            "verdict greater\nwitness 4 -2 -1 1\nend\n",
            "refused 7 Sign",
        ),
        (
            "left\nright -2 4\n",
            "c 1\n",
            "verdict greater\nwitness 4 -2\nend\n",
            "accepted Greater 1",
        ),
        (
            "left\nright -2 -1 -2\n",
            "s 1\n",
            "verdict greater\nwitness -1 -2 -1\nend\n",
            "accepted Greater 1",
        ),
    ] {
        let file = format!(in alloc; "braid-trace 1\n{words}{steps}{end}")?;
        assert_is(&rt, alloc, file.as_bytes(), want)?;
    }
    Ok(())
}

#[test]
fn refuses_a_step_that_does_not_apply(rt: HostRuntime) -> Result<(), Fail> {
    let alloc = rt.alloc();
    for (words, step, want) in [
        ("left 1\nright 1\n", "d 2", "refused 4 Step"),
        ("left 1\nright 1\n", "i 4 1", "refused 4 Step"),
        ("left 1\nright 1\n", "i 3 1", "refused 5 Truncated"),
        ("left 1\nright 1\n", "i 1 256", "refused 4 Form"),
        ("left 1\nright 1\n", "i 1", "refused 4 Form"),
        ("left 1\nright 1\n", "d 0", "refused 4 Form"),
        ("left\nright\n", "d 1", "refused 4 Step"),
        ("left\nright\n", "i 1 1", "refused 5 Truncated"),
        ("left\nright\n", "i 2 1", "refused 4 Step"),
        ("left -2\nright 1 -2\n", "h 1 3", "refused 4 Step"),
        ("left\nright 1 1\n", "d 1", "refused 4 Step"),
        ("left\nright 1 2\n", "c 1", "refused 4 Step"),
        ("left\nright 1 -2\n", "c 1", "refused 4 Step"),
        ("left\nright 1 1\n", "c 1", "refused 4 Step"),
        ("left\nright 1 3\n", "c 2", "refused 4 Step"),
        ("left\nright 1 -3\n", "c 1", "refused 5 Truncated"),
        ("left\nright 1 2 -1\n", "s 1", "refused 4 Step"),
        ("left\nright 1 -2 1\n", "s 1", "refused 4 Step"),
        ("left\nright 1 3 1\n", "s 1", "refused 4 Step"),
        ("left\nright 1 2 3\n", "s 1", "refused 4 Step"),
        ("left\nright 1 2 1\n", "s 2", "refused 4 Step"),
        ("left\nright -1 -2 -1\n", "s 1", "refused 5 Truncated"),
        ("left\nright 1\n", "s 4294967295", "refused 4 Step"),
    ] {
        let file = format!(in alloc; "braid-trace 1\n{words}{step}\n")?;
        assert_is(&rt, alloc, file.as_bytes(), want)?;
    }
    Ok(())
}

#[test]
fn refuses_each_front_of_a_trace_as_truncated(rt: HostRuntime) -> Result<(), Fail> {
    let alloc = rt.alloc();
    let bytes = TRACE.as_bytes();
    for k in 0..bytes.len() {
        let line = 1 + bytes[..k].iter().filter(|byte| **byte == b'\n').count();
        let want = format!(in alloc; "refused {line} Truncated")?;
        assert_is(&rt, alloc, &bytes[..k], want.as_str())?;
    }
    Ok(())
}

#[test]
fn a_file_may_be_cut_anywhere(rt: HostRuntime) -> Result<(), Fail> {
    let alloc = rt.alloc();
    let bytes = TRACE.as_bytes();
    for k in 0..=bytes.len() {
        let mut checker = Checker::begin(alloc)?;
        checker.feed(&bytes[..k])?;
        checker.feed(&bytes[k..])?;
        assert_eq!(rt; checker.finish()?.steps(), 2, "cut behind {k} bytes");
    }
    Ok(())
}

// Asserts that the second piece of two is refused, and then whatever follows, and what the file is.
fn assert_refused_behind(
    rt: &impl Abort,
    alloc: Global,
    front: &[u8],
    last: &[u8],
    want: &str,
) -> Result<(), Fail> {
    let mut checker = Checker::begin(alloc)?;
    checker.feed(front)?;
    assert!(rt; checker.feed(last).is_err(), "the last piece of {want:?}");
    assert_eq!(rt; checker.held(), 0, "of {want:?}");
    assert!(rt; checker.feed(b"end\n").is_err(), "behind {want:?}");
    assert_eq!(rt; text_of(alloc, checker.finish())?.as_str(), want);
    Ok(())
}

#[test]
fn an_early_refusal_comes_at_once_and_stays(rt: HostRuntime) -> Result<(), Fail> {
    let alloc = rt.alloc();
    let mut long = Vec::from_slice(alloc, b"braid-trace 1\n")?;
    for _ in 0..MAX_LINE {
        long.push(b'1')?;
    }
    let whole = TRACE.as_bytes();
    assert_refused_behind(&rt, alloc, b"braid-trace 2", b"\n", "refused 1 Header")?;
    assert_refused_behind(&rt, alloc, &long, b"1", "refused 2 Long")?;
    assert_refused_behind(&rt, alloc, whole, b"x", "refused 9 Extra")?;
    assert_refused_behind(&rt, alloc, whole, b"\n", "refused 9 Extra")
}

// Puts so many letters at the end of a line, and an LF.
fn end_line(file: &mut Vec<u8>, count: usize) -> Result<(), Fail> {
    for _ in 0..count {
        file.extend_from_slice(b" 1")?;
    }
    file.push(b'\n')?;
    Ok(())
}

// A file that begins with two words, of one letter and of so many.
fn two_words(alloc: Global, count: usize) -> Result<Vec<u8>, Fail> {
    let mut file = Vec::from_slice(alloc, b"braid-trace 1\nleft 1\nright")?;
    end_line(&mut file, count)?;
    Ok(file)
}

#[test]
fn refuses_what_is_too_long(rt: HostRuntime) -> Result<(), Fail> {
    let alloc = rt.alloc();
    let fits = two_words(alloc, MAX_LETTERS - 1)?;
    assert_eq!(rt; answer(alloc, &fits)?.as_str(), "refused 4 Truncated");
    let mut inserted = two_words(alloc, MAX_LETTERS - 1)?;
    inserted.extend_from_slice(b"d 1\ni 1 2\ni 1 2\n")?;
    assert_eq!(rt; answer(alloc, &inserted)?.as_str(), "refused 6 Long");
    let quotient = two_words(alloc, MAX_LETTERS)?;
    assert_is(&rt, alloc, &quotient, "refused 3 Long")?;
    let mut form = two_words(alloc, 1)?;
    form.extend_from_slice(b"left")?;
    end_line(&mut form, MAX_LETTERS + 1)?;
    assert_eq!(rt; answer(alloc, &form)?.as_str(), "refused 4 Form");
    let mut witness = two_words(alloc, 1)?;
    witness.extend_from_slice(b"verdict equal\nwitness")?;
    end_line(&mut witness, MAX_LETTERS + 1)?;
    assert_eq!(rt; answer(alloc, &witness)?.as_str(), "refused 5 Long");
    let mut line = Vec::from_slice(alloc, b"braid-trace 1\n")?;
    for _ in 0..=MAX_LINE {
        line.push(b'1')?;
    }
    assert_eq!(rt; answer(alloc, &line)?.as_str(), "refused 2 Long");
    line.push(b'\n')?;
    assert_eq!(rt; answer(alloc, &line)?.as_str(), "refused 2 Long");
    Ok(())
}

// A file that reduces the handle of `1`, so many `2` and `-1`: each `2` becomes three letters.
fn long_handle(alloc: Global, count: usize) -> Result<Vec<u8>, Fail> {
    let mut file = Vec::from_slice(alloc, b"braid-trace 1\nleft\nright 1")?;
    for _ in 0..count {
        file.extend_from_slice(b" 2")?;
    }
    let step = format!(in alloc; " -1\nh 1 {}\n", count.saturating_add(2))?;
    file.extend_from_slice(step.as_bytes())?;
    Ok(file)
}

#[test]
fn refuses_a_reduct_that_is_too_long(rt: HostRuntime) -> Result<(), Fail> {
    let alloc = rt.alloc();
    let fits = long_handle(alloc, 33_333)?;
    assert_eq!(rt; answer(alloc, &fits)?.as_str(), "refused 5 Truncated");
    let long = long_handle(alloc, 33_334)?;
    assert_eq!(rt; answer(alloc, &long)?.as_str(), "refused 4 Long");
    Ok(())
}

// The text of the term of this height whose left parts are all the variable.
fn high_term(alloc: Global, height: usize) -> Result<Vec<u8>, Fail> {
    let mut term = Vec::new(alloc);
    for _ in 0..height {
        term.extend_from_slice(b"(x*")?;
    }
    term.push(b'x')?;
    for _ in 0..height {
        term.push(b')')?;
    }
    Ok(term)
}

// The text of the term of this height whose leaves are all at one height: at height h its braid word has
// (3^h - 1) / 2 letters.
fn broad_term(alloc: Global, height: usize) -> Result<Vec<u8>, Fail> {
    let mut term = Vec::from_slice(alloc, b"x")?;
    for _ in 0..height {
        let mut square = Vec::from_slice(alloc, b"(")?;
        square.extend_from_slice(&term)?;
        square.push(b'*')?;
        square.extend_from_slice(&term)?;
        square.push(b')')?;
        term = square;
    }
    Ok(term)
}

// A file that begins with a left term.
fn left_term(alloc: Global, term: &[u8]) -> Result<Vec<u8>, Fail> {
    let mut file = Vec::from_slice(alloc, b"braid-trace 1\nleft-term ")?;
    file.extend_from_slice(term)?;
    file.push(b'\n')?;
    Ok(file)
}

#[test]
fn refuses_terms_that_are_too_large(rt: HostRuntime) -> Result<(), Fail> {
    let alloc = rt.alloc();
    for (term, want) in [
        (high_term(alloc, 255)?, "refused 3 Truncated"),
        (high_term(alloc, 256)?, "refused 2 Long"),
        (broad_term(alloc, 11)?, "refused 3 Truncated"),
        (broad_term(alloc, 12)?, "refused 2 Long"),
    ] {
        let file = left_term(alloc, &term)?;
        assert_eq!(rt;
            answer(alloc, &file)?.as_str(),
            want,
            "of {} bytes",
            term.len()
        );
    }
    let term = broad_term(alloc, 11)?;
    let mut quotient = left_term(alloc, &term)?;
    quotient.extend_from_slice(b"right-term ")?;
    quotient.extend_from_slice(&term)?;
    quotient.push(b'\n')?;
    assert_eq!(rt; answer(alloc, &quotient)?.as_str(), "refused 3 Long");
    Ok(())
}

#[test]
fn gives_the_words_of_an_accepted_file(rt: HostRuntime) -> Result<(), Fail> {
    let alloc = rt.alloc();
    for (file, left, right, witness) in [
        (TRACE, "1 2", "2 1", "1 -2"),
        (TERMS, "2 1", "1 2 1 -2", ""),
    ] {
        let checked = check(alloc, file.as_bytes())?;
        for (got, want) in [
            (checked.left(), left),
            (checked.right(), right),
            (checked.witness(), witness),
        ] {
            let want = read_strict_word(alloc, want.as_bytes())?;
            assert_eq!(rt; got, want.letters(), "of {file:?}");
        }
    }
    Ok(())
}

#[test]
fn gives_the_verdict_and_the_steps_of_an_accepted_file(rt: HostRuntime) -> Result<(), Fail> {
    let checked = check(rt.alloc(), TRACE.as_bytes())?;
    assert_eq!(rt; checked.verdict(), Verdict::Less);
    assert_eq!(rt; checked.steps(), 2);
    Ok(())
}
