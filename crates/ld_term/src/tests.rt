// Worked texts, the place of each fault of form, and the bounds at their limits.
use crate::{Definition, TermErr, Tree, put_term, read_definition, read_strict, read_term};
use std::alloc::{AllocError, Global};
use std::test::Fail;
use wb_base::MemSink;

// A sink that has taken the text of a tree.
fn text_of(alloc: Global, tree: &Tree) -> Result<MemSink, Fail> {
    let mut sink = MemSink::new(alloc, 100, 3, &[])?;
    put_term(&mut sink, tree)?;
    Ok(sink)
}

#[test]
fn reads_terms_and_puts_all_brackets(rt: HostRuntime) -> Result<(), Fail> {
    let alloc = rt.alloc();
    let cases: [(&[u8], &[u8]); 7] = [
        (b"x", b"x"),
        (b"x*x", b"(x*x)"),
        (b"(x*x)", b"(x*x)"),
        (b"x*(a*x)", b"(x*(a*x))"),
        (b"  ( x*x ) *  b1", b"((x*x)*b1)"),
        (b"xx*x1", b"(xx*x1)"),
        (
            b"abcdefghijklmnopqrstuvwxyz012345",
            b"abcdefghijklmnopqrstuvwxyz012345",
        ),
    ];
    for (line, want) in cases {
        let tree = read_term(alloc, line)?;
        assert_eq!(rt; text_of(alloc, &tree)?.bytes(), want, "at {line:?}");
    }
    Ok(())
}

#[test]
fn a_fault_of_form_is_at_the_first_token_that_may_not_stand(rt: HostRuntime) {
    let alloc = rt.alloc();
    let cases: [(&[u8], u64); 17] = [
        (b"", 1),
        (b"   ", 4),
        (b"(", 2),
        (b"((((", 5),
        (b"x x", 3),
        (b"x*x*x", 4),
        (b"(x)", 3),
        (b"((x*x))", 7),
        (b"(x*x", 5),
        (b"x*", 3),
        (b"*", 1),
        (b"x*  1a", 5),
        (b"x*X", 3),
        (b"x\t*x", 2),
        (b"x=x", 2),
        (b"ab(", 3),
        (b"x*abcdefghijklmnopqrstuvwxyz0123456", 3),
    ];
    for (line, place) in cases {
        let result = read_term(alloc, line);
        assert_eq!(rt; result.err(), Some(TermErr::Form { place }), "at {line:?}");
    }
}

#[test]
fn the_strict_spelling_has_all_brackets_no_spaces_and_no_names(
    rt: HostRuntime,
) -> Result<(), Fail> {
    let alloc = rt.alloc();
    let tree = read_strict(alloc, b"((x*x)*x)")?;
    assert_eq!(rt; text_of(alloc, &tree)?.bytes(), b"((x*x)*x)".as_slice());
    let cases: [(&[u8], u64); 6] = [
        (b"", 1),
        (b" x", 1),
        (b"x*x", 2),
        (b"(x* x)", 4),
        (b"(x*x) ", 6),
        (b"(x*a)", 4),
    ];
    for (bytes, place) in cases {
        let result = read_strict(alloc, bytes);
        assert_eq!(rt; result.err(), Some(TermErr::Form { place }), "at {bytes:?}");
    }
    Ok(())
}

#[test]
fn reads_definitions_with_the_place_of_the_name(rt: HostRuntime) -> Result<(), Fail> {
    let alloc = rt.alloc();
    let Definition { name, place, term } = read_definition(alloc, b"  ab = x*(c*x)")?;
    assert_eq!(rt; (name.bytes(), place), (b"ab".as_slice(), 3));
    assert_eq!(rt; text_of(alloc, &term)?.bytes(), b"(x*(c*x))".as_slice());
    let cases: [(&[u8], u64); 9] = [
        (b"", 1),
        (b"x=x", 1),
        (b"=x", 1),
        (b"a", 2),
        (b"a ", 3),
        (b"a x", 3),
        (b"a=", 3),
        (b"a=x=x", 4),
        (b"a = (x)", 7),
    ];
    for (line, place) in cases {
        let result = read_definition(alloc, line);
        assert_eq!(rt; result.err(), Some(TermErr::Form { place }), "at {line:?}");
    }
    Ok(())
}

// A term that is as high as it has products.
fn comb(alloc: Global, products: u64) -> Result<Vec<u8>, AllocError> {
    let mut text = Vec::new(alloc);
    for _ in 0..products {
        text.push(b'(')?;
    }
    text.push(b'x')?;
    for _ in 0..products {
        text.extend_from_slice(b"*x)")?;
    }
    Ok(text)
}

// A term of these many products, of about equal parts.
fn push_balanced(text: &mut Vec<u8>, products: u64) -> Result<(), AllocError> {
    if products == 0 {
        text.push(b'x')?;
        return Ok(());
    }
    let left = (products - 1) / 2;
    text.push(b'(')?;
    push_balanced(text, left)?;
    text.push(b'*')?;
    push_balanced(text, products - 1 - left)?;
    text.push(b')')?;
    Ok(())
}

#[test]
fn the_bounds_hold_at_their_limits(rt: HostRuntime) -> Result<(), Fail> {
    let alloc = rt.alloc();
    assert!(rt; read_term(alloc, &comb(alloc, 1_000)?).is_ok());
    let high = read_term(alloc, &comb(alloc, 1_001)?);
    assert_eq!(rt; high.err(), Some(TermErr::TooDeep { height: 1_001 }));
    let mut most = Vec::new(alloc);
    push_balanced(&mut most, 100_000)?;
    assert!(rt; read_strict(alloc, &most).is_ok());
    let mut many = Vec::new(alloc);
    push_balanced(&mut many, 100_001)?;
    let many = read_strict(alloc, &many);
    assert_eq!(rt; many.err(), Some(TermErr::TooMany { products: 100_001 }));
    let both = read_term(alloc, &comb(alloc, 200_000)?);
    assert_eq!(rt; both.err(), Some(TermErr::TooDeep { height: 200_000 }));
    Ok(())
}

#[test]
fn a_line_of_brackets_needs_no_deep_stack(rt: HostRuntime) -> Result<(), Fail> {
    let alloc = rt.alloc();
    let open = vec![in alloc; b'('; 1_000_000]?;
    let result = read_term(alloc, &open);
    assert_eq!(rt; result.err(), Some(TermErr::Form { place: 1_000_001 }));
    Ok(())
}
