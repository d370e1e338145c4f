// Reverse files: which are accepted, and with what, and where the others are refused and why.
use crate::{Fraction, MAX_LINE, ReverseErr, ReverseFile, ReverseWhy, check_reverse};
use braid_word::{MAX_LETTERS, read_strict_word};
use line_file::{Checker, SourceErr, check_source};
use std::alloc::Global;
use std::process::Abort;
use std::test::Fail;
use wb_base::MemSource;

// The file of `-1 2`, which represents the braid of `2 1` and the inverse of `1 2` behind it.
const FILE: &str = "reverse-trace 1\nword -1 2\nr 1\nleft 2 1\nright 1 2\nend\n";

// What a file was found to be: accepted, or the line and the cause of its first refusal.
fn text_of(alloc: Global, answer: Result<Fraction, ReverseErr>) -> Result<String, Fail> {
    match answer {
        Ok(_) => Ok(String::from_str(alloc, "accepted")?),
        Err(ReverseErr::Refused { line, why }) => Ok(format!(in alloc; "refused {line} {why:?}")?),
        Err(ReverseErr::Memory) => Ok(String::from_str(alloc, "memory")?),
    }
}

// What a file is.
fn answer(alloc: Global, file: &[u8]) -> Result<String, Fail> {
    text_of(alloc, check_reverse(alloc, file))
}

// What a file is whose bytes come in pieces of so many.
fn answer_in_pieces(alloc: Global, file: &[u8], size: usize) -> Result<String, Fail> {
    let mut checker = Checker::<ReverseFile>::begin(alloc)?;
    for piece in file.chunks(size.max(1)) {
        let _ = checker.feed(piece);
    }
    text_of(alloc, checker.finish())
}

// Asserts what a file is, whole and in pieces of 1, 7 and 4,096 bytes.
fn assert_is(rt: &impl Abort, alloc: Global, file: &[u8], want: &str) -> Result<(), Fail> {
    let got = answer(alloc, file)?;
    assert_eq!(rt; got.as_str(), want, "of {} bytes", file.len());
    for size in [1, 7, 4096] {
        let got = answer_in_pieces(alloc, file, size)?;
        assert_eq!(rt;
            got.as_str(),
            want,
            "of {} bytes in pieces of {size}",
            file.len()
        );
    }
    Ok(())
}

#[test]
fn gives_the_words_of_an_accepted_file(rt: HostRuntime) -> Result<(), Fail> {
    let alloc = rt.alloc();
    for (word, steps, left, right) in [
        (" -1 2", "r 1\n", " 2 1", " 1 2"),
        (" -2 -1 2 1", "r 2\nr 1\nr 3\n", " 1", " 2"),
        (" -1 3", "r 1\n", " 3", " 1"),
        ("", "", "", ""),
        (" 1 2 -2", "", " 1 2", " 2"),
        // Any corner may be turned, and not the leftmost alone.
        (" -1 1 -2 2", "r 3\nr 1\n", "", ""),
        (" -255 255", "r 1\n", "", ""),
    ] {
        let file = format!(in alloc;
            "reverse-trace 1\nword{word}\n{steps}left{left}\nright{right}\nend\n"
        )?;
        assert_is(&rt, alloc, file.as_bytes(), "accepted")?;
        let fraction = check_reverse(alloc, file.as_bytes())?;
        for (got, want) in [
            (fraction.word(), word),
            (fraction.left(), left),
            (fraction.right(), right),
        ] {
            let want = read_strict_word(alloc, want.trim_start().as_bytes())?;
            assert_eq!(rt; got, want.letters(), "of {file:?}");
        }
    }
    Ok(())
}

#[test]
fn refuses_a_line_that_is_not_due_or_not_of_its_form(rt: HostRuntime) -> Result<(), Fail> {
    let alloc = rt.alloc();
    for (lines, want) in [
        ("reverse-trace 2\n", "refused 1 Header"),
        ("reverse-trace 1 \n", "refused 1 Header"),
        ("braid-trace 1\n", "refused 1 Header"),
        ("\n", "refused 1 Header"),
        ("reverse-trace 1\nleft 1\n", "refused 2 Header"),
        ("reverse-trace 1\nwords 1\n", "refused 2 Header"),
        ("reverse-trace 1\n word 1\n", "refused 2 Header"),
        ("reverse-trace 1\nword \n", "refused 2 Form"),
        ("reverse-trace 1\nword 0\n", "refused 2 Form"),
        ("reverse-trace 1\nword 256\n", "refused 2 Form"),
        ("reverse-trace 1\nword 1  2\n", "refused 2 Form"),
        ("reverse-trace 1\nword\nright\n", "refused 3 Form"),
        ("reverse-trace 1\nword\nend\n", "refused 3 Form"),
        ("reverse-trace 1\nword\nword\n", "refused 3 Form"),
        ("reverse-trace 1\nword\nh 1 2\n", "refused 3 Form"),
        ("reverse-trace 1\nword\nleft \n", "refused 3 Form"),
        ("reverse-trace 1\nword\nleft 256\n", "refused 3 Form"),
        ("reverse-trace 1\nword\nleft\nleft\n", "refused 4 Form"),
        ("reverse-trace 1\nword\nleft\nr 1\n", "refused 4 Form"),
        ("reverse-trace 1\nword\nleft\nend\n", "refused 4 Form"),
        ("reverse-trace 1\nword\nleft\nright \n", "refused 4 Form"),
        ("reverse-trace 1\nword\nleft\nright 0\n", "refused 4 Form"),
        (
            "reverse-trace 1\nword\nleft\nright\nend \n",
            "refused 5 Form",
        ),
        (
            "reverse-trace 1\nword\nleft\nright\nright\n",
            "refused 5 Form",
        ),
        (
            "reverse-trace 1\nword\nleft\nright\nend\n\n",
            "refused 6 Extra",
        ),
        (
            "reverse-trace 1\nword\nleft\nright\nend\nx",
            "refused 6 Extra",
        ),
    ] {
        assert_is(&rt, alloc, lines.as_bytes(), want)?;
    }
    Ok(())
}

#[test]
fn refuses_a_place_without_a_corner_and_what_is_no_place(rt: HostRuntime) -> Result<(), Fail> {
    let alloc = rt.alloc();
    for (word, step, want) in [
        (" -1 2", "r 1", "refused 4 Truncated"),
        (" -1 2", "r 2", "refused 3 Step"),
        (" -1 2", "r 3", "refused 3 Step"),
        (" -1 2", "r 4294967295", "refused 3 Step"),
        ("", "r 1", "refused 3 Step"),
        (" -1", "r 1", "refused 3 Step"),
        (" 1 2", "r 1", "refused 3 Step"),
        (" -1 -2", "r 1", "refused 3 Step"),
        (" 1 -2", "r 1", "refused 3 Step"),
        (" -2 -1 2 1", "r 1", "refused 3 Step"),
        (" -2 -1 2 1", "r 2", "refused 4 Truncated"),
        (" -2 -1 2 1", "r 3", "refused 3 Step"),
        (" -1 2", "r 0", "refused 3 Form"),
        (" -1 2", "r 01", "refused 3 Form"),
        (" -1 2", "r 4294967296", "refused 3 Form"),
        (" -1 2", "r -1", "refused 3 Form"),
        (" -1 2", "r 1 ", "refused 3 Form"),
        (" -1 2", "r 1 2", "refused 3 Form"),
        (" -1 2", "r ", "refused 3 Form"),
        (" -1 2", "r", "refused 3 Form"),
        (" -1 2", "R 1", "refused 3 Form"),
    ] {
        let file = format!(in alloc; "reverse-trace 1\nword{word}\n{step}\n")?;
        assert_is(&rt, alloc, file.as_bytes(), want)?;
    }
    Ok(())
}

#[test]
fn refuses_another_fraction(rt: HostRuntime) -> Result<(), Fail> {
    let alloc = rt.alloc();
    for (word, words, want) in [
        (" 2 1 -2 -1", "left 2 1\nright 1 2\nend\n", "accepted"),
        (
            " 2 1 -2 -1",
            "left 2\nright 1 2\nend\n",
            "refused 3 Fraction",
        ),
        (" 2 1 -2 -1", "left\n", "refused 3 Fraction"),
        (" 2 1 -2 -1", "left 1 2\n", "refused 3 Fraction"),
        (" 2 1 -2 -1", "left 2 1 -2\n", "refused 3 Fraction"),
        (" 2 1 -2 -1", "left 2 1 2\n", "refused 3 Fraction"),
        (" 2 1", "left 2 1 1\n", "refused 3 Fraction"),
        (" -1 2", "left 2\n", "refused 3 Fraction"),
        (" 2 1 -2 -1", "left 2 1\nright 1\n", "refused 4 Fraction"),
        (" 2 1 -2 -1", "left 2 1\nright 2\n", "refused 4 Fraction"),
        (" 2 1 -2 -1", "left 2 1\nright 2 1\n", "refused 4 Fraction"),
        (
            " 2 1 -2 -1",
            "left 2 1\nright 1 2 1\n",
            "refused 4 Fraction",
        ),
        (" 2 1 -2 -1", "left 2 1\nright\n", "refused 4 Fraction"),
        (
            " 2 1 -2 -1",
            "left 2 1\nright -2 -1\n",
            "refused 4 Fraction",
        ),
        // A corner that is left is found at the right word, which then has an inverse letter.
        (" 1 -1 2", "left 1\nright -2 1\n", "refused 4 Fraction"),
        (" 1 -1 2", "left 1\nright 2 1\n", "refused 4 Fraction"),
    ] {
        let file = format!(in alloc; "reverse-trace 1\nword{word}\n{words}")?;
        assert_is(&rt, alloc, file.as_bytes(), want)?;
    }
    Ok(())
}

#[test]
fn refuses_each_front_of_a_file_as_truncated(rt: HostRuntime) -> Result<(), Fail> {
    let alloc = rt.alloc();
    let bytes = FILE.as_bytes();
    for k in 0..bytes.len() {
        let line = 1 + bytes[..k].iter().filter(|byte| **byte == b'\n').count();
        let want = format!(in alloc; "refused {line} Truncated")?;
        assert_is(&rt, alloc, &bytes[..k], want.as_str())?;
    }
    Ok(())
}

// Lines, and then one of this front and so many letters `1`.
fn long_line(alloc: Global, lines: &str, front: &str, count: usize) -> Result<Vec<u8>, Fail> {
    let mut file = Vec::from_slice(alloc, lines.as_bytes())?;
    file.extend_from_slice(front.as_bytes())?;
    for _ in 0..count {
        file.extend_from_slice(b" 1")?;
    }
    file.push(b'\n')?;
    Ok(file)
}

#[test]
fn refuses_a_word_that_is_too_long(rt: HostRuntime) -> Result<(), Fail> {
    let alloc = rt.alloc();
    let start = "reverse-trace 1\n";
    let begun = "reverse-trace 1\nword -1 2\nr 1\n";
    let left = "reverse-trace 1\nword -1 2\nr 1\nleft 2 1\n";
    // The lines before a long one, its front, and how many letters follow that.
    for (lines, front, count, want) in [
        (start, "word", MAX_LETTERS, "refused 3 Truncated"),
        (start, "word", MAX_LETTERS + 1, "refused 2 Long"),
        (start, "word 0", MAX_LETTERS, "refused 2 Form"),
        (begun, "left", MAX_LETTERS + 1, "refused 4 Long"),
        (left, "right", MAX_LETTERS + 1, "refused 5 Long"),
    ] {
        let file = long_line(alloc, lines, front, count)?;
        let got = answer(alloc, &file)?;
        assert_eq!(rt; got.as_str(), want, "{front:?} and {count} letters");
    }
    Ok(())
}

#[test]
fn refuses_a_step_to_a_word_that_is_too_long(rt: HostRuntime) -> Result<(), Fail> {
    let alloc = rt.alloc();
    // The first letters, how many follow them, and a step.
    for (front, count, step, want) in [
        ("word -1 2", MAX_LETTERS - 4, "r 1\n", "refused 4 Truncated"),
        ("word -1 2", MAX_LETTERS - 3, "r 1\n", "refused 3 Long"),
        ("word -1 2", MAX_LETTERS - 3, "r 2\n", "refused 3 Step"),
        ("word -1 3", MAX_LETTERS - 2, "r 1\n", "refused 4 Truncated"),
    ] {
        let mut file = long_line(alloc, "reverse-trace 1\n", front, count)?;
        file.extend_from_slice(step.as_bytes())?;
        let got = answer(alloc, &file)?;
        assert_eq!(rt;
            got.as_str(),
            want,
            "{front:?}, {count} letters and {step:?}"
        );
    }
    Ok(())
}

// Asserts what a file is that ends with a line of so many bytes, which has an LF and which hasn't.
fn assert_long(
    rt: &impl Abort,
    alloc: Global,
    lines: &str,
    count: usize,
    wants: [&str; 2],
) -> Result<(), Fail> {
    let [bare, ended] = wants;
    let mut file = Vec::from_slice(alloc, lines.as_bytes())?;
    for _ in 0..count {
        file.push(b'1')?;
    }
    assert_eq!(rt; answer(alloc, &file)?.as_str(), bare, "{count} bytes");
    file.push(b'\n')?;
    assert_eq!(rt;
        answer(alloc, &file)?.as_str(),
        ended,
        "{count} bytes and an LF"
    );
    assert_eq!(rt;
        answer_in_pieces(alloc, &file, 4096)?.as_str(),
        ended,
        "in pieces"
    );
    Ok(())
}

#[test]
fn refuses_a_line_that_is_too_long(rt: HostRuntime) -> Result<(), Fail> {
    let alloc = rt.alloc();
    let start = "reverse-trace 1\n";
    let fits = ["refused 2 Truncated", "refused 2 Header"];
    assert_long(&rt, alloc, start, MAX_LINE, fits)?;
    assert_long(&rt, alloc, start, MAX_LINE + 1, ["refused 2 Long"; 2])?;
    assert_long(&rt, alloc, FILE, MAX_LINE + 1, ["refused 7 Extra"; 2])
}

#[test]
fn checks_a_source_within_a_limit(rt: HostRuntime) -> Result<(), Fail> {
    let alloc = rt.alloc();
    let size = FILE.len();
    let faults: [&[u64]; 2] = [&[], &[2]];
    for (limit, fault, want) in [
        (size, 0, "accepted"),
        (size.saturating_sub(1), 0, "too large"),
        (size, 1, "fault"),
    ] {
        let mut source = MemSource::new(alloc, FILE.as_bytes(), 7, faults[fault])?;
        let got = match check_source::<ReverseFile, MemSource>(alloc, &mut source, limit) {
            Ok(_) => "accepted",
            Err(SourceErr::TooLarge) => "too large",
            Err(SourceErr::Fault) => "fault",
            Err(SourceErr::Refused { .. } | SourceErr::Memory) => "another answer",
        };
        assert_eq!(rt; got, want, "within {limit} bytes");
    }
    let mut source = MemSource::new(alloc, b"reverse-trace 1\nword\nr 1\n", 7, &[])?;
    let refused = check_source::<ReverseFile, MemSource>(alloc, &mut source, size);
    match refused {
        Err(SourceErr::Refused { line, why }) => {
            assert_eq!(rt; (line, why), (3, ReverseWhy::Step));
        }
        _ => assert!(rt; false, "another answer"),
    }
    Ok(())
}
