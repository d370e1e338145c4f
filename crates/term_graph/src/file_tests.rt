// Worked term files: their terms, each cause of refusal, and the order of the causes.
use crate::{DefsErr, NodeId, TermFile, TermGraph, read_terms};
use std::alloc::{AllocError, Global};
use std::test::Fail;

// The strict text of a term, where it isn't long.
fn text_of(alloc: Global, graph: &TermGraph, number: NodeId) -> Result<Vec<u8>, AllocError> {
    if number.index() > graph.nodes() as usize {
        return Ok(Vec::new(alloc));
    }
    if graph.leaves(number) > 100_001 {
        return Ok(Vec::new(alloc));
    }
    graph.strict_text(alloc, number)
}

// The strict texts of a file's terms, with a space before the second.
fn texts_of(alloc: Global, file: &TermFile) -> Result<Vec<u8>, AllocError> {
    let mut texts = text_of(alloc, &file.graph, file.first)?;
    if let Some(second) = file.second {
        texts.push(b' ')?;
        texts.extend_from_slice(&text_of(alloc, &file.graph, second)?)?;
    }
    Ok(texts)
}

#[test]
fn names_stand_for_their_terms(rt: HostRuntime) -> Result<(), Fail> {
    let alloc = rt.alloc();
    let cases: [(&[u8], u32, &[u8]); 8] = [
        (b"x", 1, b"x"),
        (b"(x*x)*x\n", 1, b"((x*x)*x)"),
        (b"a = x*x\na\n", 1, b"(x*x)"),
        (b"a=x*x\nb = (a*x)\na*b", 1, b"((x*x)*((x*x)*x))"),
        (b"a=x\nb=a\nb*a", 1, b"(x*x)"),
        (b"x\nx*x\n", 2, b"x (x*x)"),
        (b"x*(x*x)\n(x*x)*(x*x)\n", 2, b"(x*(x*x)) ((x*x)*(x*x))"),
        (b"a=x*x\nx*a\na*x\n", 2, b"(x*(x*x)) ((x*x)*x)"),
    ];
    for (bytes, terms, want) in cases {
        let file = read_terms(alloc, bytes, terms)?;
        let texts = texts_of(alloc, &file)?;
        assert_eq!(rt; texts.as_slice(), want, "of {bytes:?}");
    }
    Ok(())
}

#[test]
fn the_first_fault_decides(rt: HostRuntime) {
    let alloc = rt.alloc();
    let cases: [(&[u8], u32, DefsErr); 18] = [
        (b"", 1, DefsErr::Lines { line: 1 }),
        (b"", 2, DefsErr::Lines { line: 1 }),
        (b"x", 2, DefsErr::Lines { line: 2 }),
        (b"(((", 2, DefsErr::Lines { line: 2 }),
        (b"x*x*x", 1, DefsErr::Form { line: 1, place: 4 }),
        (b"\nx", 1, DefsErr::Form { line: 1, place: 1 }),
        (b"x\nx", 1, DefsErr::Form { line: 1, place: 1 }),
        (b"a=x\n", 1, DefsErr::Form { line: 1, place: 2 }),
        (b"x\na=x\nx", 2, DefsErr::Form { line: 1, place: 1 }),
        (b"a = (b*x)\na", 1, DefsErr::Unknown { line: 1, place: 6 }),
        (b"a = (a*a)\na", 1, DefsErr::Unknown { line: 1, place: 6 }),
        (
            b"a=x\n b = a*(c*d)\nb",
            1,
            DefsErr::Unknown { line: 2, place: 9 },
        ),
        (b"z\ny", 2, DefsErr::Unknown { line: 1, place: 1 }),
        (b"x\ny", 2, DefsErr::Unknown { line: 2, place: 1 }),
        (
            b"a = (x*x)\na = x\na",
            1,
            DefsErr::Twice { line: 2, place: 1 },
        ),
        (b"a=x\n a=b\na", 1, DefsErr::Twice { line: 2, place: 2 }),
        (b"a=x\na=x)\na", 1, DefsErr::Form { line: 2, place: 4 }),
        (b"a=b\na=x\n(", 1, DefsErr::Unknown { line: 1, place: 3 }),
    ];
    for (bytes, terms, want) in cases {
        let result = read_terms(alloc, bytes, terms);
        assert_eq!(rt; result.err(), Some(want), "of {bytes:?}");
    }
}

// A definition of `a`, and a definition of it again that is a term with an unknown name under so many
// products.
fn push_comb(file: &mut Vec<u8>, products: u64) -> Result<(), AllocError> {
    file.extend_from_slice(b"a=x\na=")?;
    for _ in 0..products {
        file.push(b'(')?;
    }
    file.push(b'b')?;
    for _ in 0..products {
        file.extend_from_slice(b"*x)")?;
    }
    file.extend_from_slice(b"\nx")
}

// A term in which each of the parts is the same, so many levels high.
fn balanced(alloc: Global, levels: u64) -> Result<Vec<u8>, AllocError> {
    let mut text = Vec::new(alloc);
    text.push(b'b')?;
    for _ in 0..levels {
        let mut next = Vec::new(alloc);
        next.push(b'(')?;
        next.extend_from_slice(&text)?;
        next.push(b'*')?;
        next.extend_from_slice(&text)?;
        next.push(b')')?;
        text = next;
    }
    Ok(text)
}

#[test]
fn sizes_come_before_names(rt: HostRuntime) -> Result<(), Fail> {
    let alloc = rt.alloc();
    let mut low = Vec::new(alloc);
    push_comb(&mut low, 1_000)?;
    let low = read_terms(alloc, &low, 1);
    assert_eq!(rt; low.err(), Some(DefsErr::Twice { line: 2, place: 1 }));
    let mut high = Vec::new(alloc);
    push_comb(&mut high, 1_001)?;
    let high = read_terms(alloc, &high, 1);
    assert_eq!(rt;
        high.err(),
        Some(DefsErr::TooDeep {
            line: 2,
            height: 1_001
        })
    );
    let many = read_terms(alloc, &balanced(alloc, 17)?, 1);
    assert_eq!(rt;
        many.err(),
        Some(DefsErr::TooMany {
            line: 1,
            products: 131_071
        })
    );
    Ok(())
}

// So many definitions, each of which has one product more than the one before it.
fn push_chain(file: &mut String, alloc: Global, count: u64) -> Result<(), AllocError> {
    file.push_str("a1 = (x*x)\n")?;
    for j in 1..count {
        let line = format!(in alloc; "a{} = (x*a{j})\n", j + 1)?;
        file.push_str(&line)?;
    }
    Ok(())
}

#[test]
fn heights_grow_from_line_to_line(rt: HostRuntime) -> Result<(), Fail> {
    let alloc = rt.alloc();
    let mut file = String::new(alloc);
    push_chain(&mut file, alloc, 1_001)?;
    let high = format!(in alloc; "{file}x\n")?;
    let result = read_terms(alloc, high.as_bytes(), 1);
    assert_eq!(rt; result.err(), Some(DefsErr::Height));
    let fault = format!(in alloc; "{file}y\n")?;
    let result = read_terms(alloc, fault.as_bytes(), 1);
    assert_eq!(rt;
        result.err(),
        Some(DefsErr::Unknown {
            line: 1_002,
            place: 1
        })
    );
    let mut file = String::new(alloc);
    push_chain(&mut file, alloc, 1_000)?;
    file.push_str("a256\n")?;
    let TermFile { graph, .. } = read_terms(alloc, file.as_bytes(), 1)?;
    assert_eq!(rt; graph.nodes(), 1_000);
    Ok(())
}

#[test]
fn a_term_of_many_leaves_has_few_products(rt: HostRuntime) -> Result<(), Fail> {
    let alloc = rt.alloc();
    let mut file = String::new(alloc);
    file.push_str("d1 = (x*x)\n")?;
    for j in 1..40u64 {
        let line = format!(in alloc; "d{} = (d{j}*d{j})\n", j + 1)?;
        file.push_str(&line)?;
    }
    file.push_str("d40\n")?;
    let TermFile { graph, first, .. } = read_terms(alloc, file.as_bytes(), 1)?;
    assert_eq!(rt; (graph.nodes(), first.index()), (40, 40));
    Ok(())
}

// The products of a name with each of so many names, as definitions.
fn push_products(file: &mut String, alloc: Global, i: u64) -> Result<(), AllocError> {
    for j in 1..401u64 {
        let line = format!(in alloc; "p{i}q{j} = (a{i}*a{j})\n")?;
        file.push_str(&line)?;
    }
    Ok(())
}

#[test]
fn a_graph_has_room_for_100000_products(rt: HostRuntime) -> Result<(), Fail> {
    let alloc = rt.alloc();
    let mut file = String::new(alloc);
    push_chain(&mut file, alloc, 400)?;
    for i in 1..401u64 {
        push_products(&mut file, alloc, i)?;
    }
    file.push_str("x\n")?;
    let result = read_terms(alloc, file.as_bytes(), 1);
    assert_eq!(rt; result.err(), Some(DefsErr::Nodes));
    Ok(())
}
