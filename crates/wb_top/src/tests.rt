// What the program answers, over streams in memory.
use crate::run;
use std::alloc::{AllocError, Global};
use std::process::Abort;
use std::test::Fail;
use wb_base::{MemSink, MemSource, Source, Status, SureSource};

// A command line, its input, and the status and the text that answer them.
type Row<'a> = (&'a str, &'a [u8], Status, &'a [u8]);

const USAGE: &[u8] = b"usage: braid_bench COMMAND NUMBERS\n";

// The answer to the words `1` and `2`.
const GREATER: &[u8] = b"braid-trace 1\nleft 1\nright 2\nverdict greater\nwitness -1 2\nend\n";

// The answer to the words `1 2` and `2 1`.
const LESS: &[u8] =
    b"braid-trace 1\nleft 1 2\nright 2 1\nh 2 4\nh 1 2\nverdict less\nwitness 1 -2\nend\n";

// The answer to two empty words.
const EQUAL: &[u8] = b"braid-trace 1\nleft\nright\nverdict equal\nwitness\nend\n";

// The words of a command line.
fn words_of(alloc: Global, line: &str) -> Result<Vec<String>, AllocError> {
    let mut words = Vec::new(alloc);
    for word in line.split_whitespace() {
        words.push(String::from_str(alloc, word)?)?;
    }
    Ok(words)
}

// Asserts how the program ends, and what the sink has taken then. The row is for the message.
fn assert_ends<S: Source>(
    rt: &impl Abort,
    alloc: Global,
    line: &str,
    source: &mut S,
    sink: &mut MemSink,
    answer: (Status, &[u8]),
    row: usize,
) -> Result<(), AllocError> {
    let words = words_of(alloc, line)?;
    let status = run(alloc, &words, source, sink);
    assert_eq!(rt; status, answer.0, "row {row}");
    assert_eq!(rt; sink.bytes(), answer.1, "row {row}");
    Ok(())
}

// Asserts what the program answers to each row, over a source of which these calls fail.
fn assert_rows(
    rt: &impl Abort,
    alloc: Global,
    rows: &[Row],
    failing: &[u64],
) -> Result<(), AllocError> {
    for (row, (line, input, status, text)) in rows.iter().enumerate() {
        let mut source = MemSource::new(alloc, input, 1000, failing)?;
        let mut sink = MemSink::new(alloc, text.len().max(1000), 1000, &[])?;
        assert_ends(
            rt,
            alloc,
            line,
            &mut source,
            &mut sink,
            (*status, text),
            row,
        )?;
    }
    Ok(())
}

#[test]
fn writes_a_trace_or_the_limit_that_was_met(rt: HostRuntime) -> Result<(), Fail> {
    let rows: [Row; 15] = [
        ("compare 0 0", b"\n\n", Status::Done, EQUAL),
        ("compare 10 10", b"1\n2\n", Status::Done, GREATER),
        ("compare 10 10", b" 1 \n2", Status::Done, GREATER),
        ("compare 100000 100000", b"1\n2\n", Status::Done, GREATER),
        ("compare 2 4", b"1 2\n2 1\n", Status::Done, LESS),
        ("compare 2 4", b"ab\nba\n", Status::Done, LESS),
        (
            "compare 1 4",
            b"1 2\n2 1\n",
            Status::Limit,
            b"limit handles 1\n",
        ),
        (
            "compare 9 9",
            b"1 2 1\n2 1 2\n",
            Status::Done,
            b"braid-trace 1\nleft 1 2 1\nright 2 1 2\nh 3 5\nh 2 3\nh 1 2\nh 1 2\nverdict equal\nwitness\nend\n",
        ),
        (
            "compare 9 9",
            b"1 3\n3 1\n",
            Status::Done,
            b"braid-trace 1\nleft 1 3\nright 3 1\nh 2 4\nh 1 2\nverdict equal\nwitness\nend\n",
        ),
        (
            "compare 9 5",
            b"1\n2 2 1\n",
            Status::Limit,
            b"limit length 5\n",
        ),
        (
            "compare 9 6",
            b"1\n2 2 1\n",
            Status::Done,
            b"braid-trace 1\nleft 1\nright 2 2 1\nh 1 4\nh 3 4\nverdict less\nwitness 2 1 1 -2\nend\n",
        ),
        (
            "compare 9 3",
            b"1 2\n2 1\n",
            Status::Limit,
            b"limit length 3\n",
        ),
        (
            "compare 0 2",
            b"1\n1\n",
            Status::Limit,
            b"limit handles 0\n",
        ),
        ("compare 0 1", b"1\n1\n", Status::Limit, b"limit length 1\n"),
        (
            "compare 1000 1000",
            b"1 2 3 -2 1\n3 1 -2 1\n",
            Status::Done,
            b"braid-trace 1\nleft 1 2 3 -2 1\nright 3 1 -2 1\nh 2 4\nh 5 7\nh 1 7\nh 4 7\nh 6 7\nverdict greater\nwitness -3 2 -1 3 2 2 -3 -1 -2\nend\n",
        ),
    ];
    Ok(assert_rows(&rt, rt.alloc(), &rows, &[])?)
}

#[test]
fn says_what_is_wrong_with_an_input(rt: HostRuntime) -> Result<(), Fail> {
    let rows: [(&str, &[u8], &[u8]); 20] = [
        ("compare 9 9", b"", b"input 1 lines\n"),
        ("compare 9 9", b"\n", b"input 2 lines\n"),
        ("compare 9 9", b"1\n", b"input 2 lines\n"),
        ("compare 9 9", b"1\n1\n1\n", b"input 3 lines\n"),
        ("compare 9 9", b"256\n1\n", b"input 1 index 1\n"),
        ("compare 9 9", b"256\n", b"input 1 index 1\n"),
        ("compare 9 9", b"1 02\n1\n", b"input 1 letter 3\n"),
        ("compare 9 9", b"1\n0\n", b"input 2 index 1\n"),
        ("compare 9 9", b"1\n2 -0\n1\n", b"input 2 index 3\n"),
        ("compare 9 9", b"1\n\xff\n", b"input 2 letter 1\n"),
        ("compare 9 9", b"ab1\n1\n", b"input 1 letter 3\n"),
        ("compare 9 9", b"a\n z\n", b"input 2 letter 2\n"),
        ("compare 9 9", b"1a\na\n", b"input 1 letter 1\n"),
        (
            "compare 9 9",
            b"123456789012345678901234567890\n1\n",
            b"input 1 index 1\n",
        ),
        ("act 2 1 9", b"", b"input 1 lines\n"),
        ("act 2 1 9", b"2\n", b"input 1 strands 1\n"),
        ("act 3 1 9", b"1 -2 1 -3 4\n", b"input 1 strands 4\n"),
        ("act 2 1 9", b"2 0\n", b"input 1 index 3\n"),
        ("act 2 1 9", b"1\n1\n", b"input 2 lines\n"),
        ("act 2 1 9", b"2\n1\n", b"input 1 strands 1\n"),
    ];
    for (line, input, text) in rows {
        assert_rows(&rt, rt.alloc(), &[(line, input, Status::Input, text)], &[])?;
    }
    Ok(())
}

#[test]
fn refuses_a_word_of_too_many_letters(rt: HostRuntime) -> Result<(), Fail> {
    let alloc = rt.alloc();
    let mut input = Vec::new(alloc);
    for _ in 0..100_001 {
        input.extend_from_slice(b"1 ")?;
    }
    let text = b"input 1 long 100001\n";
    Ok(assert_rows(
        &rt,
        alloc,
        &[("compare 9 9", &input, Status::Input, text)],
        &[],
    )?)
}

#[test]
fn checks_a_trace_file_of_any_maker(rt: HostRuntime) -> Result<(), Fail> {
    let rows: [(&[u8], Status, &[u8]); 15] = [
        (LESS, Status::Done, b"accepted less\n"),
        (TERMS, Status::Done, b"accepted equal\n"),
        (
            b"braid-trace 1\nleft-term x*x\n",
            Status::Refused,
            b"refused 2 form\n",
        ),
        (EQUAL, Status::Done, b"accepted equal\n"),
        (GREATER, Status::Done, b"accepted greater\n"),
        (
            b"braid-trace 1\nleft 1 2 1\nright 2 1 2\ns 4\nd 3\nd 2\nd 1\nverdict equal\nwitness\nend\n",
            Status::Done,
            b"accepted equal\n",
        ),
        (
            b"braid-trace 1\nleft 1 3\nright 3 1\nc 2\nd 1\nd 1\nverdict equal\nwitness\nend\n",
            Status::Done,
            b"accepted equal\n",
        ),
        (
            b"braid-trace 1\nleft\nright 2\ni 1 3\nverdict less\nwitness 3 -3 2\nend\n",
            Status::Done,
            b"accepted less\n",
        ),
        (b"", Status::Refused, b"refused 1 truncated\n"),
        (
            b"braid-trace 1\nright 1\n",
            Status::Refused,
            b"refused 2 header\n",
        ),
        (
            b"braid-trace 1\nleft 1\nright 1\nh 1 2\nh 1 2\n",
            Status::Refused,
            b"refused 5 step\n",
        ),
        (
            b"braid-trace 1\nleft 1\nright 1\nd 2\n",
            Status::Refused,
            b"refused 4 step\n",
        ),
        (
            b"braid-trace 1\nleft 1\nright 1\ni 4 1\n",
            Status::Refused,
            b"refused 4 step\n",
        ),
        (
            b"braid-trace 1\nleft 1\nright 1\ni 1 256\n",
            Status::Refused,
            b"refused 4 form\n",
        ),
        (
            b"braid-trace 1\nleft\nright 1 -1\nverdict less\nwitness 1 -1\n",
            Status::Refused,
            b"refused 5 sign\n",
        ),
    ];
    for (input, status, text) in rows {
        assert_rows(&rt, rt.alloc(), &[("check", input, status, text)], &[])?;
    }
    Ok(())
}

// The trace of x(xx) and (xx)(xx).
const TERMS: &[u8] =
    b"braid-trace 1\nleft-term (x*(x*x))\nright-term ((x*x)*(x*x))\nh 1 3\nh 3 4\nh 2 3\nh 1 2\nverdict equal\nwitness\nend\n";

#[test]
fn compares_the_braids_of_terms(rt: HostRuntime) -> Result<(), Fail> {
    let rows: [Row; 6] = [
        ("terms 9 9", b"x*(x*x)\n(x*x)*(x*x)\n", Status::Done, TERMS),
        ("terms 9 9", b"a = x*x\nx*a\na*a\n", Status::Done, TERMS),
        (
            "terms 9 9",
            b"x\nx*x\n",
            Status::Done,
            b"braid-trace 1\nleft-term x\nright-term (x*x)\nverdict less\nwitness 1\nend\n",
        ),
        (
            "terms 3 9",
            b"x*(x*x)\n(x*x)*(x*x)\n",
            Status::Limit,
            b"limit handles 3\n",
        ),
        (
            "terms 9 5",
            b"x*(x*x)\n(x*x)*(x*x)\n",
            Status::Limit,
            b"limit length 5\n",
        ),
        ("terms 9 9", b"x\n", Status::Input, b"input 2 lines\n"),
    ];
    Ok(assert_rows(&rt, rt.alloc(), &rows, &[])?)
}

#[test]
fn gives_the_braid_of_a_term(rt: HostRuntime) -> Result<(), Fail> {
    let rows: [Row; 10] = [
        ("eval 9", b"(x*x)*x\n", Status::Done, b"1 1 -2\n"),
        ("eval 3", b"a = x*x\n(a*x)", Status::Done, b"1 1 -2\n"),
        ("eval 9", b"x\n", Status::Done, b"\n"),
        ("eval 0", b"x\n", Status::Done, b"\n"),
        (
            "eval 2",
            b"(x*x)*x\n",
            Status::Limit,
            b"limit length 2 needs 3\n",
        ),
        ("eval 9", b"x*x*x\n", Status::Input, b"input 1 term 4\n"),
        (
            "eval 9",
            b"a = (b*x)\na\n",
            Status::Input,
            b"input 1 unknown 6\n",
        ),
        (
            "eval 9",
            b"a = (x*x)\na = x\na\n",
            Status::Input,
            b"input 2 twice 1\n",
        ),
        ("eval 9", b"", Status::Input, b"input 1 lines\n"),
        ("eval 100001", b"x\n", Status::Words, USAGE),
    ];
    Ok(assert_rows(&rt, rt.alloc(), &rows, &[])?)
}

#[test]
fn gives_values_and_listings_of_terms(rt: HostRuntime) -> Result<(), Fail> {
    let rows: [Row; 13] = [
        ("value 3", b"x*(x*x)\n", Status::Done, b"4\n"),
        ("value 0", b"a = x*x\na*a\n", Status::Done, b"1\n"),
        ("value 3", b"a*x\n", Status::Input, b"input 1 unknown 1\n"),
        (
            "expand .",
            b"x*(x*x)\n",
            Status::Done,
            b"t1 = (x*x)\nt2 = (t1*t1)\nt2\n",
        ),
        (
            "expand .0",
            b"a = x*(x*x)\na*a\n",
            Status::Done,
            b"t1 = (x*x)\nt2 = (t1*t1)\nt3 = (x*t1)\nt4 = (t2*t3)\nt4\n",
        ),
        (
            "expand .1",
            b"x*(x*x)\n",
            Status::Input,
            b"input 1 expand\n",
        ),
        (
            "expand .00",
            b"a = x*(x*x)\na\n",
            Status::Input,
            b"input 2 address\n",
        ),
        ("expand .", b"x*\n", Status::Input, b"input 1 term 3\n"),
        (
            "derive",
            b"(x*x)*(x*x)\n",
            Status::Done,
            b"t1 = (x*x)\nt2 = (t1*x)\nt3 = (t2*t2)\nt3\n",
        ),
        ("derive", b"x\n", Status::Done, b"x\n"),
        (
            "derive",
            b"a = x*x\nb = a*a\nc = b*b\nd = c*c\ne = d*d\nf = e*e\ng = f*f\nh = g*g\ni = h*h\ni*i\n",
            Status::Limit,
            b"limit height 1000\n",
        ),
        ("derive", b"", Status::Input, b"input 1 lines\n"),
        ("expand .2", b"x*(x*x)\n", Status::Words, USAGE),
    ];
    Ok(assert_rows(&rt, rt.alloc(), &rows, &[])?)
}

#[test]
fn serves_a_session(rt: HostRuntime) -> Result<(), Fail> {
    let rows: [Row; 3] = [
        (
            "session",
            b"open a 9 9 | 1 2 | 2 1\nturn a 1\nturn a 1\nwalk\nclose a\nlist",
            Status::Done,
            b"opened a\nstate a running 1\nstate a less 2\nbad\nclosed a\njobs 0\n",
        ),
        ("session", b"", Status::Done, b""),
        ("session 1", b"", Status::Words, USAGE),
    ];
    Ok(assert_rows(&rt, rt.alloc(), &rows, &[])?)
}

#[test]
fn gives_normal_forms(rt: HostRuntime) -> Result<(), Fail> {
    let rows: [Row; 10] = [
        ("normal 3", b"1 2 1\n", Status::Done, b"delta 1\n"),
        (
            "normal 3",
            b"-1\n",
            Status::Done,
            b"delta -1\nfactor 2 3 1\n",
        ),
        (
            "normal 3",
            b"1 -2\n",
            Status::Done,
            b"delta -1\nfactor 1 3 2\nfactor 3 1 2\n",
        ),
        ("normal 3", b"\n", Status::Done, b"delta 0\n"),
        (
            "normal 3",
            b"aba abaa\n",
            Status::Done,
            b"delta 2\nfactor 2 1 3\n",
        ),
        ("normal 3", b"3\n", Status::Input, b"input 1 strands 1\n"),
        ("normal 3", b"1 0\n", Status::Input, b"input 1 index 3\n"),
        ("normal 3", b"1\n\n", Status::Input, b"input 2 lines\n"),
        ("normal 1", b"\n", Status::Words, USAGE),
        ("normal 65", b"\n", Status::Words, USAGE),
    ];
    Ok(assert_rows(&rt, rt.alloc(), &rows, &[])?)
}

// What `gcd` writes of a divisor and of what is left of the two words.
fn division(alloc: Global, words: [&str; 3]) -> Result<Vec<u8>, AllocError> {
    let mut text = Vec::new(alloc);
    for (name, word) in ["divisor", "left", "right"].into_iter().zip(words) {
        text.extend_from_slice(name.as_bytes())?;
        if !word.is_empty() {
            text.extend_from_slice(b" ")?;
            text.extend_from_slice(word.as_bytes())?;
        }
        text.extend_from_slice(b"\n")?;
    }
    Ok(text)
}

#[test]
fn gives_greatest_common_divisors(rt: HostRuntime) -> Result<(), Fail> {
    let alloc = rt.alloc();
    let rows: [(&str, &[u8], [&str; 3]); 17] = [
        ("gcd 3", b"1 2\n1 2 1\n", ["1 2", "", "1"]),
        ("gcd 3", b"1 1\n2 2\n", ["", "1 1", "2 2"]),
        ("gcd 3", b"2 1 2 1\n1 2 1 1\n", ["1 2 1 1", "", ""]),
        ("gcd 3", b"ab\naba", ["1 2", "", "1"]),
        ("gcd 3", b"\n\n", ["", "", ""]),
        ("gcd 3", b"\n1 2\n", ["", "", "1 2"]),
        ("gcd 3", b"1 2\n \n", ["", "1 2", ""]),
        ("gcd 2", b"1 1 1\n1 1\n", ["1 1", "1", ""]),
        ("gcd 2", b"1 1\n1 1\n", ["1 1", "", ""]),
        ("gcd 3", b"1 2 1 1\n1 2 1 2\n", ["1 2 1", "1", "2"]),
        ("gcd 3", b"1 2 1 1 2 1\n1 2 1 2 1\n", ["1 2 1 2 1", "2", ""]),
        ("gcd 4", b"1 2 3 1 2 1\n3 3\n", ["3", "1 2 1 3 2", "3"]),
        ("gcd 4", b"2 1 3 2 1\n2 1 3 2 3\n", ["2 1 3 2", "1", "3"]),
        ("gcd 4", b"2 2 1 3\n2 3 1 2\n", ["2", "2 1 3", "1 3 2"]),
        ("gcd 4", b"3 2 1 3 2 3\n3 2 3\n", ["2 3 2", "1 2 3", ""]),
        ("gcd 5", b"4 3 2 1\n4 2 1\n", ["4", "3 2 1", "2 1"]),
        ("gcd 64", b"63 62 63 1\n62 63 62\n", ["62 63 62", "1", ""]),
    ];
    for (line, input, words) in rows {
        let text = division(alloc, words)?;
        assert_rows(&rt, alloc, &[(line, input, Status::Done, &text)], &[])?;
    }
    Ok(())
}

#[test]
fn says_what_keeps_two_words_from_being_divided(rt: HostRuntime) -> Result<(), Fail> {
    let rows: [(&[u8], &[u8]); 17] = [
        (b"1 -2\n1\n", b"input 1 negative 2\n"),
        (b"1\n1 2 -1 -2\n", b"input 2 negative 3\n"),
        (b"-1\n-1\n", b"input 1 negative 1\n"),
        (b"aB\na\n", b"input 1 negative 2\n"),
        (b"-1 3\n1\n", b"input 1 strands 2\n"),
        (b"-3\n1\n", b"input 1 strands 1\n"),
        (b"1\n-2 1 4\n", b"input 2 strands 3\n"),
        (b"-1 3 02\n1\n", b"input 1 letter 6\n"),
        (b"1\n-1 0\n", b"input 2 index 4\n"),
        (b"-1\n02\n", b"input 1 negative 1\n"),
        (b"-1\n", b"input 1 negative 1\n"),
        (b"3\n-1\n", b"input 1 strands 1\n"),
        (b"", b"input 1 lines\n"),
        (b"1\n", b"input 2 lines\n"),
        (b"1\n2\n1\n", b"input 3 lines\n"),
        (b"1\n3\n-1\n", b"input 2 strands 1\n"),
        (b"1\n-2\n1\n", b"input 2 negative 1\n"),
    ];
    for (input, text) in rows {
        assert_rows(
            &rt,
            rt.alloc(),
            &[("gcd 3", input, Status::Input, text)],
            &[],
        )?;
    }
    for line in ["gcd", "gcd 1", "gcd 65", "gcd 03", "gcd 3 3"] {
        assert_rows(
            &rt,
            rt.alloc(),
            &[(line, b"1\n1\n", Status::Words, USAGE)],
            &[],
        )?;
    }
    Ok(())
}

// A line of so many letters `1`, and then a second line.
fn ones_and(alloc: Global, count: usize, second: &[u8]) -> Result<Vec<u8>, AllocError> {
    let mut input = Vec::new(alloc);
    for _ in 0..count {
        input.extend_from_slice(b"1 ")?;
    }
    input.extend_from_slice(b"\n")?;
    input.extend_from_slice(second)?;
    Ok(input)
}

#[test]
fn divides_words_of_up_to_2000_letters(rt: HostRuntime) -> Result<(), Fail> {
    let alloc = rt.alloc();
    let limit = b"limit letters 2000\n".as_slice();
    let long = ones_and(alloc, 2001, b"\n")?;
    assert_rows(&rt, alloc, &[("gcd 2", &long, Status::Limit, limit)], &[])?;
    let below = ones_and(alloc, 0, &ones_and(alloc, 2001, b"")?)?;
    assert_rows(&rt, alloc, &[("gcd 2", &below, Status::Limit, limit)], &[])?;
    // The form comes before the limit.
    let lines = ones_and(alloc, 2001, b"\n\n")?;
    let three = b"input 3 lines\n".as_slice();
    assert_rows(&rt, alloc, &[("gcd 2", &lines, Status::Input, three)], &[])?;
    let inverse = ones_and(alloc, 2001, b"-1\n")?;
    let negative = b"input 2 negative 1\n".as_slice();
    assert_rows(
        &rt,
        alloc,
        &[("gcd 2", &inverse, Status::Input, negative)],
        &[],
    )?;
    let most = ones_and(alloc, 2000, b"1\n")?;
    let mut rest = Vec::from_slice(alloc, b"divisor 1\nleft".as_slice())?;
    for _ in 0..1999 {
        rest.extend_from_slice(b" 1")?;
    }
    rest.extend_from_slice(b"\nright\n")?;
    Ok(assert_rows(&rt, alloc, &[("gcd 2", &most, Status::Done, &rest)], &[])?)
}

// The reverse file of the word `-1 2`.
const REVERSED: &[u8] = b"reverse-trace 1\nword -1 2\nr 1\nleft 2 1\nright 1 2\nend\n";

#[test]
fn gives_a_fraction_or_the_limit_that_was_met(rt: HostRuntime) -> Result<(), Fail> {
    let rows: [Row; 13] = [
        ("reverse 9 9", b"-1 2\n", Status::Done, REVERSED),
        ("reverse 1 4", b" Ab", Status::Done, REVERSED),
        (
            "reverse 9 9",
            b"-2 -1 2 1\n",
            Status::Done,
            b"reverse-trace 1\nword -2 -1 2 1\nr 2\nr 1\nr 3\nleft 1\nright 2\nend\n",
        ),
        (
            "reverse 9 9",
            b"-1 3\n",
            Status::Done,
            b"reverse-trace 1\nword -1 3\nr 1\nleft 3\nright 1\nend\n",
        ),
        (
            "reverse 0 0",
            b"\n",
            Status::Done,
            b"reverse-trace 1\nword\nleft\nright\nend\n",
        ),
        (
            "reverse 0 3",
            b"1 255 -2\n",
            Status::Done,
            b"reverse-trace 1\nword 1 255 -2\nleft 1 255\nright 2\nend\n",
        ),
        ("reverse 0 9", b"-1 2\n", Status::Limit, b"limit steps 0\n"),
        (
            "reverse 2 9",
            b"-2 -1 2 1\n",
            Status::Limit,
            b"limit steps 2\n",
        ),
        ("reverse 9 3", b"-1 2\n", Status::Limit, b"limit length 3\n"),
        ("reverse 0 1", b"-1 2\n", Status::Limit, b"limit length 1\n"),
        ("reverse 9 9", b"", Status::Input, b"input 1 lines\n"),
        ("reverse 9 9", b"1\n2\n", Status::Input, b"input 2 lines\n"),
        ("reverse 9 9", b"256\n", Status::Input, b"input 1 index 1\n"),
    ];
    Ok(assert_rows(&rt, rt.alloc(), &rows, &[])?)
}

#[test]
fn checks_a_reverse_file_of_any_maker(rt: HostRuntime) -> Result<(), Fail> {
    let rows: [(&[u8], &[u8]); 10] = [
        (b"", b"refused 1 truncated\n"),
        (b"braid-trace 1\n", b"refused 1 header\n"),
        (b"reverse-trace 1\nleft\n", b"refused 2 header\n"),
        (b"reverse-trace 1\nword -1 2\nr 2\n", b"refused 3 step\n"),
        (b"reverse-trace 1\nword -1 2\nr 01\n", b"refused 3 form\n"),
        (
            b"reverse-trace 1\nword -1 2\nr 1\nleft 2\n",
            b"refused 4 fraction\n",
        ),
        (
            b"reverse-trace 1\nword -1 2\nr 1\nleft 2 1\nright 2 1\n",
            b"refused 5 fraction\n",
        ),
        (
            b"reverse-trace 1\nword\nleft\nright\nend",
            b"refused 5 truncated\n",
        ),
        (
            b"reverse-trace 1\nword\nleft\nright\nend\n\n",
            b"refused 6 extra\n",
        ),
        (b"reverse-trace 1\nword 256\n", b"refused 2 form\n"),
    ];
    let alloc = rt.alloc();
    for (input, text) in rows {
        assert_rows(
            &rt,
            alloc,
            &[("reverse-check", input, Status::Refused, text)],
            &[],
        )?;
    }
    let accepted: Row = ("reverse-check", REVERSED, Status::Done, b"accepted\n");
    Ok(assert_rows(&rt, alloc, &[accepted], &[])?)
}

#[test]
fn tells_whether_words_are_equivalent(rt: HostRuntime) -> Result<(), Fail> {
    let rows: [Row; 8] = [
        (
            "same 3",
            b"1 2 1 1 2 1 1\n1 1 2 1 1 2 1\n",
            Status::Done,
            b"same\n",
        ),
        ("same 3", b"1 2\n2 1\n", Status::Done, b"different\n"),
        ("same 64", b"1 63\n63 1\n", Status::Done, b"same\n"),
        ("same 2", b"1 -1\n\n", Status::Done, b"same\n"),
        ("same 2", b"1\n\n", Status::Done, b"different\n"),
        ("same 3", b"1\n3\n", Status::Input, b"input 2 strands 1\n"),
        ("same 3", b"3\nq\n", Status::Input, b"input 1 strands 1\n"),
        ("same 3 3", b"1\n1\n", Status::Words, USAGE),
    ];
    Ok(assert_rows(&rt, rt.alloc(), &rows, &[])?)
}

#[test]
fn gives_the_image_of_a_generator(rt: HostRuntime) -> Result<(), Fail> {
    let rows: [Row; 8] = [
        ("act 3 1 10", b"1 1\n", Status::Done, b"1 2 1 -2 -1\n"),
        ("act 3 1 3", b"1 1\n", Status::Limit, b"limit image 3\n"),
        ("act 3 1 5", b"1 1\n", Status::Done, b"1 2 1 -2 -1\n"),
        ("act 2 1 10", b"1 -1\n", Status::Done, b"1\n"),
        ("act 2 1 1", b"\n", Status::Done, b"1\n"),
        ("act 2 1 9", b"-1\n", Status::Done, b"2\n"),
        ("act 2 2 9", b"-1\n", Status::Done, b"-2 1 2\n"),
        ("act 64 64 1", b"63\n", Status::Done, b"63\n"),
    ];
    Ok(assert_rows(&rt, rt.alloc(), &rows, &[])?)
}

#[test]
fn gives_laver_tables_and_reads_nothing(rt: HostRuntime) -> Result<(), Fail> {
    let rows: [Row; 4] = [
        ("laver 0", b"x", Status::Done, b"1\n"),
        (
            "laver 2",
            b"x",
            Status::Done,
            b"2 4 2 4\n3 4 3 4\n4 4 4 4\n1 2 3 4\n",
        ),
        (
            "row 4 1",
            b"x",
            Status::Done,
            b"2 12 14 16 2 12 14 16 2 12 14 16 2 12 14 16\n",
        ),
        ("row 3 2", b"x", Status::Done, b"3 4 7 8 3 4 7 8\n"),
    ];
    Ok(assert_rows(&rt, rt.alloc(), &rows, &[0])?)
}

#[test]
fn counts_the_runs_of_pairs_that_it_makes(rt: HostRuntime) -> Result<(), Fail> {
    let rows: [Row; 3] = [
        (
            "bench 2 1 1 0 10 10",
            b"",
            Status::Done,
            b"pairs 1\nless 0\nequal 0\ngreater 1\nhandles-met 0\nlength-met 0\nhandles 0\n",
        ),
        (
            "bench 5 0 3 7 0 0",
            b"",
            Status::Done,
            b"pairs 3\nless 0\nequal 3\ngreater 0\nhandles-met 0\nlength-met 0\nhandles 0\n",
        ),
        (
            "bench 2 1 1 0 10 1",
            b"",
            Status::Done,
            b"pairs 1\nless 0\nequal 0\ngreater 0\nhandles-met 0\nlength-met 1\nhandles 0\n",
        ),
    ];
    Ok(assert_rows(&rt, rt.alloc(), &rows, &[0])?)
}

#[test]
fn reads_nothing_for_words_that_are_no_command(rt: HostRuntime) -> Result<(), Fail> {
    let lines = [
        "",
        "check 1",
        "act",
        "act 3 1",
        "act 1 1 9",
        "act 65 1 9",
        "act 3 0 9",
        "act 3 4 9",
        "act 3 1 0",
        "act 3 1 100001",
        "act 3 1 9 9",
        "reverse",
        "reverse 9",
        "reverse 100001 9",
        "reverse 9 100001",
        "reverse 9 9 9",
        "reverse-check 1",
        "value",
        "value 15",
        "value 1 1",
        "expand",
        "expand 0",
        "expand .0 1",
        "derive 1",
        "laver",
        "laver 9",
        "laver 1 1",
        "row 3",
        "row 15 1",
        "row 3 0",
        "row 3 9",
        "row 3 1 1",
        "bench",
        "bench 1 1 1 0 1 1",
        "bench 65 1 1 0 1 1",
        "bench 2 1001 1 0 1 1",
        "bench 2 1 0 0 1 1",
        "bench 2 1 1001 0 1 1",
        "bench 2 1 1 18446744073709551616 1 1",
        "bench 2 1 1 0 1 100001",
        "bench 2 1 1 0 1 1 1",
        "--help",
        "compare",
        "compare 1",
        "compare 01 2",
        "compare 1 02",
        "compare 100001 1",
        "compare 1 100001",
        "compare 1 2x",
        "compare 1 2 3",
        "Compare 1 2",
        "1 2 compare",
    ];
    for line in lines {
        let row: Row = (line, b"1\n2\n", Status::Words, USAGE);
        assert_rows(&rt, rt.alloc(), &[row], &[0])?;
    }
    Ok(())
}

#[test]
fn answers_a_fault_at_each_call_of_a_stream(rt: HostRuntime) -> Result<(), Fail> {
    let alloc = rt.alloc();
    // A call for each byte, and one that finds the end.
    for call in 0..9 {
        let mut source = MemSource::new(alloc, b"1 2\n2 1\n", 1, &[call])?;
        let mut sink = MemSink::new(alloc, 1000, 1000, &[])?;
        let answer: (Status, &[u8]) = (Status::ReadFault, b"");
        assert_ends(
            &rt,
            alloc,
            "compare 10 10",
            &mut source,
            &mut sink,
            answer,
            call as usize,
        )?;
    }
    // A call for each byte, and that of `done`.
    for call in 0..=LESS.len() {
        let mut source = SureSource::new(alloc, b"1 2\n2 1\n", 1)?;
        let mut sink = MemSink::new(alloc, 1000, 1, &[call as u64])?;
        let answer = (Status::WriteFault, &LESS[..call]);
        assert_ends(
            &rt,
            alloc,
            "compare 10 10",
            &mut source,
            &mut sink,
            answer,
            call,
        )?;
    }
    Ok(())
}

/// A session of lines of each kind, each with its reply, which an LF ends.
const SESSION: [(&[u8], &[u8]); 13] = [
    (b"open a 9 9 | 1 2 | 2 1\n", b"opened a\n"),
    (b"open b 9 9 | 1 2 1 | 2 1 2\n", b"opened b\n"),
    (b"turn a 1\n", b"state a running 1\n"),
    (b"turn b 2\n", b"state b running 2\n"),
    (b"turn a 1\n", b"state a less 2\n"),
    (b"take a\n", LESS),
    (b"close a\n", b"closed a\n"),
    (b"open a 9 9 | 1 2 | 2 1\n", b"opened a\n"),
    (b"show a\n", b"state a running 0\n"),
    (b"show c\n", b"no job c\n"),
    (b"open a 9 9 | 1 | 2\n", b"twice a\n"),
    (b"list\n", b"jobs 2\nstate b running 2\nstate a running 0\n"),
    (b"walk\n", b"bad\n"),
];

/// The lines of `SESSION`, and their replies.
fn session_texts(alloc: Global) -> Result<(Vec<u8>, Vec<u8>), AllocError> {
    let mut lines = Vec::new(alloc);
    let mut replies = Vec::new(alloc);
    for (line, reply) in SESSION {
        lines.extend_from_slice(line)?;
        replies.extend_from_slice(reply)?;
    }
    Ok((lines, replies))
}

/// The length of the replies to the lines of `SESSION` that are whole in its first `read` bytes.
fn replied_to(read: usize) -> usize {
    let mut lines = 0usize;
    let mut replies = 0usize;
    for (line, reply) in SESSION {
        lines = lines.saturating_add(line.len());
        if lines > read {
            break;
        }
        replies = replies.saturating_add(reply.len());
    }
    replies
}

/// How many bytes of replies are given before call `call` of a sink that takes a byte a call, where a
/// call of `done` is behind each reply.
fn given_before(call: usize) -> usize {
    let mut left = call;
    let mut given = 0usize;
    for (_, reply) in SESSION {
        if left <= reply.len() {
            return given.saturating_add(left);
        }
        left -= reply.len() + 1;
        given = given.saturating_add(reply.len());
    }
    given
}

#[test]
fn a_session_has_answered_the_lines_before_a_fault(rt: HostRuntime) -> Result<(), Fail> {
    let alloc = rt.alloc();
    let (input, replies) = session_texts(alloc)?;
    for call in 0..=input.len() {
        let mut source = MemSource::new(alloc, &input, 1, &[call as u64])?;
        let mut sink = MemSink::new(alloc, 1000, 1000, &[])?;
        let replied = replied_to(call).min(replies.len());
        let answer = (Status::ReadFault, &replies[..replied]);
        assert_ends(&rt, alloc, "session", &mut source, &mut sink, answer, call)?;
    }
    Ok(())
}

#[test]
fn a_session_gives_a_front_of_its_replies_up_to_a_fault(rt: HostRuntime) -> Result<(), Fail> {
    let alloc = rt.alloc();
    let (input, replies) = session_texts(alloc)?;
    for call in 0..replies.len().saturating_add(SESSION.len()) {
        let mut source = SureSource::new(alloc, &input, 1)?;
        let mut sink = MemSink::new(alloc, 1000, 1, &[call as u64])?;
        let given = given_before(call).min(replies.len());
        let answer = (Status::WriteFault, &replies[..given]);
        assert_ends(&rt, alloc, "session", &mut source, &mut sink, answer, call)?;
    }
    Ok(())
}

#[test]
fn answers_without_a_fault_over_a_source_that_has_none(rt: HostRuntime) -> Result<(), Fail> {
    let alloc = rt.alloc();
    for (row, (input, text)) in [(b"\n\n".as_slice(), EQUAL), (b"1\n2\n", GREATER)]
        .into_iter()
        .enumerate()
    {
        let mut source = SureSource::new(alloc, input, 1)?;
        let mut sink = MemSink::new(alloc, 1000, 1, &[])?;
        assert_ends(
            &rt,
            alloc,
            "compare 10 10",
            &mut source,
            &mut sink,
            (Status::Done, text),
            row,
        )?;
    }
    Ok(())
}

// This many spaces.
fn spaces(alloc: Global, count: usize) -> Result<Vec<u8>, AllocError> {
    vec![in alloc; b' '; count]
}

// A file of so many bytes whose first line is no trace's.
fn wrong_trace(alloc: Global, count: usize) -> Result<Vec<u8>, AllocError> {
    let mut file = Vec::from_slice(alloc, b"braid-trace 2\n")?;
    let rest = spaces(alloc, count.saturating_sub(file.len()))?;
    file.extend_from_slice(&rest)?;
    Ok(file)
}

#[test]
fn reads_input_of_8388608_bytes_and_no_more(rt: HostRuntime) -> Result<(), Fail> {
    let alloc = rt.alloc();
    let most = spaces(alloc, 8_388_608)?;
    let more = wrong_trace(alloc, 8_388_609)?;
    let rows: [Row; 3] = [
        ("compare 9 9", &most, Status::Input, b"input 2 lines\n"),
        (
            "compare 9 9",
            &more,
            Status::Limit,
            b"limit input 8388608\n",
        ),
        ("check", &more, Status::Limit, b"limit input 8388608\n"),
    ];
    Ok(assert_rows(&rt, alloc, &rows, &[])?)
}
