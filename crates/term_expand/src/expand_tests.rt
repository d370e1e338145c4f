// Worked expansions, the refusals, and addresses at their limit.
use crate::{ExpandErr, MAX_ADDRESS, expand, is_address};
use std::alloc::{AllocError, Global};
use std::test::Fail;
use term_graph::{GraphErr, NodeId, TermGraph};

// The product of two terms of which no proof knows that they are there.
fn product_of(graph: &mut TermGraph, left: NodeId, right: NodeId) -> Result<NodeId, GraphErr> {
    let most = graph.nodes() as usize;
    if left.index() > most || right.index() > most {
        return Err(GraphErr::Memory);
    }
    graph.product(left, right)
}

// The expansion of a term of which no proof knows that it is there, at what no proof knows to be an address.
fn expanded(
    alloc: Global,
    graph: &mut TermGraph,
    node: NodeId,
    address: &[u8],
) -> Result<NodeId, ExpandErr> {
    if node.index() > graph.nodes() as usize || !is_address(address) {
        return Err(ExpandErr::Memory);
    }
    expand(alloc, graph, node, address)
}

// The strict text of a term of which no proof knows that it is there, and nothing for a long one.
fn text_of(alloc: Global, graph: &TermGraph, node: NodeId) -> Result<Vec<u8>, AllocError> {
    if node.index() > graph.nodes() as usize || graph.leaves(node) > 100 {
        return Ok(Vec::new(alloc));
    }
    graph.strict_text(alloc, node)
}

#[test]
fn expands_the_part_at_the_address_alone(rt: HostRuntime) -> Result<(), Fail> {
    let alloc = rt.alloc();
    let mut graph = TermGraph::new(alloc)?;
    let x = graph.var();
    let square = product_of(&mut graph, x, x)?;
    let small = product_of(&mut graph, x, square)?;
    let twice = product_of(&mut graph, small, small)?;
    let deep = product_of(&mut graph, square, twice)?;
    let cases: [(NodeId, &[u8], &[u8]); 5] = [
        (small, b"", b"((x*x)*(x*x))"),
        (twice, b"0", b"(((x*x)*(x*x))*(x*(x*x)))"),
        (twice, b"1", b"((x*(x*x))*((x*x)*(x*x)))"),
        (deep, b"10", b"((x*x)*(((x*x)*(x*x))*(x*(x*x))))"),
        (deep, b"", b"(((x*x)*(x*(x*x)))*((x*x)*(x*(x*x))))"),
    ];
    for (node, address, want) in cases {
        let node = expanded(alloc, &mut graph, node, address)?;
        let text = text_of(alloc, &graph, node)?;
        assert_eq!(rt; text.as_slice(), want);
    }
    let kept = text_of(alloc, &graph, twice)?;
    assert_eq!(rt; kept.as_slice(), b"((x*(x*x))*(x*(x*x)))".as_slice());
    Ok(())
}

#[test]
fn finds_the_faults_of_an_address_before_any_request(rt: HostRuntime) -> Result<(), Fail> {
    let alloc = rt.alloc();
    let mut graph = TermGraph::new(alloc)?;
    let x = graph.var();
    let square = product_of(&mut graph, x, x)?;
    let small = product_of(&mut graph, x, square)?;
    let cases: [(NodeId, &[u8], ExpandErr); 6] = [
        (x, b"", ExpandErr::NotExpandable),
        (square, b"", ExpandErr::NotExpandable),
        (small, b"1", ExpandErr::NotExpandable),
        (small, b"0", ExpandErr::NotExpandable),
        (small, b"00", ExpandErr::NoPlace),
        (small, b"110", ExpandErr::NoPlace),
    ];
    for (node, address, want) in cases {
        let found = expanded(alloc, &mut graph, node, address).err();
        assert_eq!(rt; found, Some(want));
    }
    assert_eq!(rt; graph.nodes(), 2);
    Ok(())
}

#[test]
fn a_refusal_leaves_the_numbers_as_they_were(rt: HostRuntime) -> Result<(), Fail> {
    let alloc = rt.alloc();
    let mut graph = TermGraph::new(alloc)?;
    let x = graph.var();
    let square = product_of(&mut graph, x, x)?;
    let mut high = x;
    for _ in 0..999 {
        high = product_of(&mut graph, high, x)?;
    }
    let whole = product_of(&mut graph, high, square)?;
    let made = graph.nodes();
    let found = expanded(alloc, &mut graph, whole, b"").err();
    assert_eq!(rt; found, Some(ExpandErr::TooDeep));
    assert_eq!(rt; graph.nodes(), made + 1);
    let text = text_of(alloc, &graph, square)?;
    assert_eq!(rt; text.as_slice(), b"(x*x)".as_slice());
    assert_eq!(rt; product_of(&mut graph, high, square)?, whole);
    Ok(())
}

#[test]
fn goes_as_deep_as_a_term_is_high(rt: HostRuntime) -> Result<(), Fail> {
    let alloc = rt.alloc();
    let mut graph = TermGraph::new(alloc)?;
    let x = graph.var();
    let mut high = x;
    for _ in 0..1_000 {
        high = product_of(&mut graph, x, high)?;
    }
    for (length, nodes, want) in [
        (1_000, 1_000, Some(ExpandErr::NotExpandable)),
        (999, 1_000, Some(ExpandErr::NotExpandable)),
        (998, 1_999, None),
    ] {
        let address = vec![in alloc; b'1'; length]?;
        let found = expanded(alloc, &mut graph, high, address.as_slice()).err();
        assert_eq!(rt; found, want, "at {length} bytes");
        assert_eq!(rt; graph.nodes(), nodes, "at {length} bytes");
    }
    Ok(())
}

#[test]
fn an_address_has_at_most_1000_sides(rt: HostRuntime) -> Result<(), Fail> {
    let alloc = rt.alloc();
    let cases: [(&[u8], bool); 6] = [
        (b"", true),
        (b"0110", true),
        (b"2", false),
        (b"/", false),
        (b"01 0", false),
        (b"1", true),
    ];
    for (bytes, want) in cases {
        assert_eq!(rt; is_address(bytes), want);
    }
    for (length, want) in [(MAX_ADDRESS, true), (MAX_ADDRESS + 1, false)] {
        let bytes = vec![in alloc; b'1'; length]?;
        assert_eq!(rt; is_address(bytes.as_slice()), want, "of {length} bytes");
    }
    Ok(())
}
