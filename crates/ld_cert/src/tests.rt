// What files are found to be, by worked rows and at each limit, and tables that tell terms apart.
ghost use Rattle.std.specs.Prelude.{◌≤◌};
ghost use Rattle.laver_table.specs.declared.TheConstants.{MAX_EXPONENT};

use crate::{LdChecked, LdErr, MAX_LINE, check_ld, differ};
use std::alloc::Global;
use std::test::Fail;

// The certificate that x*(x*x) is equivalent to its derived term.
const PATH: &str = "ld-certificate 1\nleft (x*(x*x))\nright ((x*x)*(x*x))\nyes\nl .\nend\n";

// The certificate that x isn't equivalent to x*x.
const APART: &str = "ld-certificate 1\nleft x\nright (x*x)\nno 1\nend\n";

// What a file was found to be: its answer, or the line and the cause of its first refusal.
fn answer(alloc: Global, file: &[u8]) -> Result<String, Fail> {
    match check_ld(alloc, file) {
        Ok(checked) => Ok(format!(in alloc; "accepted {:?}", checked.answer())?),
        Err(LdErr::Refused { line, why }) => Ok(format!(in alloc; "refused {line} {why:?}")?),
        Err(LdErr::Memory) => Ok(String::from_str(alloc, "memory")?),
    }
}

#[test]
fn accepts_a_certificate_and_nothing_else(rt: HostRuntime) -> Result<(), Fail> {
    let alloc = rt.alloc();
    for (file, want) in [
        (PATH, "accepted Yes"),
        (APART, "accepted No(1)"),
        ("", "refused 1 Truncated"),
        ("\n", "refused 1 Header"),
        ("ld-certificate 2\n", "refused 1 Header"),
        ("ld-certificate 1\r\n", "refused 1 Header"),
        ("ld-certificate 1\nright x\n", "refused 2 Header"),
        ("ld-certificate 1\nlefts x\n", "refused 2 Header"),
        ("ld-certificate 1\n left x\n", "refused 2 Header"),
        ("ld-certificate 1\nleft\n", "refused 2 Form"),
        ("ld-certificate 1\nleft \n", "refused 2 Form"),
        ("ld-certificate 1\nleft  x\n", "refused 2 Form"),
        ("ld-certificate 1\nleft x*x\n", "refused 2 Form"),
        ("ld-certificate 1\nleft (x*y)\n", "refused 2 Form"),
        ("ld-certificate 1\nleft x\nleft x\n", "refused 3 Header"),
        ("ld-certificate 1\nleft x\nright (x*x\n", "refused 3 Form"),
    ] {
        let got = answer(alloc, file.as_bytes())?;
        assert_eq!(rt; got.as_str(), want, "of {file:?}");
    }
    Ok(())
}

#[test]
fn checks_what_stands_behind_the_terms(rt: HostRuntime) -> Result<(), Fail> {
    let alloc = rt.alloc();
    let (cube, doubled) = (
        "left (x*(x*x))\nright ((x*x)*(x*x))\n",
        "left x\nright (x*x)\n",
    );
    let longer = "left (x*(x*(x*x)))\nright (x*((x*x)*(x*x)))\n";
    let one = "left (x*x)\nright (x*x)\n";
    for (terms, lines, want) in [
        (cube, "yes\nend\n", "refused 5 Differ"),
        (cube, "yes\nl .00\nend\n", "refused 5 Place"),
        (cube, "yes\nl .0\n", "refused 5 Place"),
        (cube, "yes\nl .1\n", "refused 5 Place"),
        (cube, "yes\nl .\nl .\nend\n", "refused 7 Differ"),
        (cube, "yes\nl 0\n", "refused 5 Form"),
        (cube, "yes\nl .2\n", "refused 5 Form"),
        (cube, "yes\nl . \n", "refused 5 Form"),
        (cube, "yes\nl.\n", "refused 5 Form"),
        (cube, "yes\nr 0\n", "refused 5 Form"),
        (cube, "yes\nyes\n", "refused 5 Form"),
        (cube, "yes\nl .\nend \n", "refused 6 Form"),
        (cube, "yes \n", "refused 4 Form"),
        (cube, "l .\n", "refused 4 Form"),
        (cube, "end\n", "refused 4 Form"),
        (cube, "yes\nl .\nend\n\n", "refused 7 Extra"),
        (cube, "yes\nl .\nend\nx", "refused 7 Extra"),
        (one, "yes\nend\n", "accepted Yes"),
        (one, "no 14\n", "refused 4 Alike"),
        (longer, "yes\nl .1\nl .\nr .\nend\n", "accepted Yes"),
        (longer, "yes\nl .1\nend\n", "accepted Yes"),
        (longer, "yes\nl .\nr .\nend\n", "refused 7 Differ"),
        (longer, "yes\nr .\nl .1\n", "refused 6 Form"),
        (longer, "yes\nr .\nl .000\n", "refused 6 Form"),
        (longer, "yes\nr .\nr .00\n", "refused 6 Place"),
        (longer, "yes\nr .\nno 1\n", "refused 6 Form"),
        (doubled, "no 0\nend\n", "refused 4 Alike"),
        (doubled, "no 14\nend\n", "accepted No(14)"),
        (doubled, "no 15\nend\n", "refused 4 Form"),
        (doubled, "no 01\nend\n", "refused 4 Form"),
        (doubled, "no 1 \nend\n", "refused 4 Form"),
        (doubled, "no\nend\n", "refused 4 Form"),
        (doubled, "no 1\nyes\n", "refused 5 Form"),
        (doubled, "no 1\nend\nend\n", "refused 6 Extra"),
    ] {
        let file = format!(in alloc; "ld-certificate 1\n{terms}{lines}")?;
        let got = answer(alloc, file.as_bytes())?;
        assert_eq!(rt; got.as_str(), want, "of {file:?}");
    }
    Ok(())
}

#[test]
fn refuses_each_front_of_a_certificate_as_truncated(rt: HostRuntime) -> Result<(), Fail> {
    let alloc = rt.alloc();
    let bytes = PATH.as_bytes();
    for k in 0..bytes.len() {
        let line = 1 + bytes[..k].iter().filter(|byte| **byte == b'\n').count();
        let want = format!(in alloc; "refused {line} Truncated")?;
        assert_eq!(rt; answer(alloc, &bytes[..k])?.as_str(), want.as_str());
    }
    Ok(())
}

// So many times one text, and another behind them.
fn repeated(alloc: Global, text: &[u8], times: usize, last: &[u8]) -> Result<Vec<u8>, Fail> {
    let mut all = Vec::new(alloc);
    for _ in 0..times {
        all.extend_from_slice(text)?;
    }
    all.extend_from_slice(last)?;
    Ok(all)
}

// The term of so many products, each with the first part on its left, round the last part.
fn comb(alloc: Global, part: &[u8], height: usize, last: &[u8]) -> Result<Vec<u8>, Fail> {
    let mut front = Vec::from_slice(alloc, b"(")?;
    front.extend_from_slice(part)?;
    front.push(b'*')?;
    let mut term = repeated(alloc, &front, height, last)?;
    term.extend_from_slice(&repeated(alloc, b")", height, b"")?)?;
    Ok(term)
}

// What a file is that begins with these terms, with further lines behind them.
fn answer_of(alloc: Global, left: &[u8], right: &[u8], lines: &[u8]) -> Result<String, Fail> {
    let mut file = Vec::from_slice(alloc, b"ld-certificate 1\nleft ")?;
    file.extend_from_slice(left)?;
    file.extend_from_slice(b"\nright ")?;
    file.extend_from_slice(right)?;
    file.push(b'\n')?;
    file.extend_from_slice(lines)?;
    answer(alloc, &file)
}

#[test]
fn refuses_terms_that_are_too_high(rt: HostRuntime) -> Result<(), Fail> {
    let alloc = rt.alloc();
    let (fits, high) = (
        comb(alloc, b"x", 1_000, b"x")?,
        comb(alloc, b"x", 1_001, b"x")?,
    );
    let got = answer_of(alloc, &fits, &fits, b"")?;
    assert_eq!(rt; got.as_str(), "refused 4 Truncated");
    let got = answer_of(alloc, &high, b"x", b"")?;
    assert_eq!(rt; got.as_str(), "refused 2 Long");
    let got = answer_of(alloc, b"x", &high, b"")?;
    assert_eq!(rt; got.as_str(), "refused 3 Long");
    Ok(())
}

#[test]
fn refuses_terms_of_more_than_100_001_leaves(rt: HostRuntime) -> Result<(), Fail> {
    let alloc = rt.alloc();
    let part = comb(alloc, b"x", 249, b"x")?;
    let (fits, large) = (
        comb(alloc, &part, 400, b"x")?,
        comb(alloc, &part, 400, b"(x*x)")?,
    );
    let got = answer_of(alloc, &fits, &large, b"")?;
    assert_eq!(rt; got.as_str(), "refused 3 Long");
    Ok(())
}

#[test]
fn refuses_lines_that_are_too_long(rt: HostRuntime) -> Result<(), Fail> {
    let alloc = rt.alloc();
    let longest = repeated(alloc, b"1", MAX_LINE, b"\n")?;
    assert_eq!(rt; answer(alloc, &longest)?.as_str(), "refused 1 Header");
    let longer = repeated(alloc, b"1", MAX_LINE + 1, b"")?;
    assert_eq!(rt; answer(alloc, &longer)?.as_str(), "refused 1 Long");
    for (digits, want) in [(1_000, "refused 5 Place"), (1_001, "refused 5 Form")] {
        let address = repeated(alloc, b"1", digits, b"\n")?;
        for front in [b"yes\nl .".as_slice(), b"yes\nr .".as_slice()] {
            let lines = repeated(alloc, front, 1, &address)?;
            assert_eq!(rt; answer_of(alloc, b"x", b"x", &lines)?.as_str(), want);
        }
    }
    Ok(())
}

#[test]
fn refuses_an_expansion_that_is_too_high(rt: HostRuntime) -> Result<(), Fail> {
    let alloc = rt.alloc();
    for (height, lines, want) in [
        (998, b"yes\nl .\nend\n".as_slice(), "refused 6 Differ"),
        (999, b"yes\nl .\nend\n".as_slice(), "refused 5 Large"),
        (999, b"yes\nr .\nend\n".as_slice(), "refused 5 Large"),
        (999, b"yes\nl .11\nend\n".as_slice(), "refused 5 Place"),
        (999, b"yes\nl .1\nend\n".as_slice(), "refused 5 Place"),
    ] {
        let mut term = Vec::from_slice(alloc, b"(")?;
        term.extend_from_slice(&comb(alloc, b"x", height, b"x")?)?;
        term.extend_from_slice(b"*(x*x))")?;
        assert_eq!(rt; answer_of(alloc, &term, &term, lines)?.as_str(), want);
    }
    Ok(())
}

// The strict text of both terms of a certificate; nothing for one that has too many leaves.
fn terms_of(alloc: Global, checked: &LdChecked) -> Result<String, Fail> {
    let graph = checked.graph();
    let mut terms = Vec::new(alloc);
    for node in [checked.left(), checked.right()] {
        if graph.leaves(node) <= 100_001 {
            terms.extend_from_slice(&graph.strict_text(alloc, node)?)?;
        }
        terms.push(b' ')?;
    }
    Ok(String::from_utf8(terms)?)
}

// The least table up to that of 2^n that tells the terms of a certificate apart, or none.
fn table_of(alloc: Global, checked: &LdChecked, n: u32) -> Result<String, Fail>
    requires { n ≤ MAX_EXPONENT }
{
    let found = differ(alloc, checked.graph(), checked.left(), checked.right(), n)?;
    Ok(format!(in alloc; "{found:?}")?)
}

#[test]
fn gives_the_terms_of_a_certificate_and_the_least_table(rt: HostRuntime) -> Result<(), Fail> {
    let alloc = rt.alloc();
    for (file, terms, table) in [
        (PATH, "(x*(x*x)) ((x*x)*(x*x)) ", "None"),
        (APART, "x (x*x) ", "Some(1)"),
    ] {
        let checked = check_ld(alloc, file.as_bytes())?;
        assert_eq!(rt; terms_of(alloc, &checked)?.as_str(), terms);
        assert_eq!(rt; table_of(alloc, &checked, 3)?.as_str(), table);
    }
    Ok(())
}
