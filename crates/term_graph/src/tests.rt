// Worked terms, the bounds at their limits, and names.
use crate::{GraphErr, MAX_NODES, NameErr, Names, NodeId, TermGraph};
use std::alloc::{AllocError, Global};
use std::test::Fail;
use wb_base::Name;

// The answer to a request for the product of two numbers; the variable where one of them isn't there.
fn ask(graph: &mut TermGraph, a: u32, b: u32) -> Result<NodeId, GraphErr> {
    if a.max(b) > graph.nodes() {
        return Ok(graph.var());
    }
    graph.product(NodeId(a), NodeId(b))
}

// A graph of so many products, each of the one before it with itself.
fn doubled(alloc: Global, times: u32) -> Result<TermGraph, GraphErr> {
    let mut graph = TermGraph::new(alloc)?;
    for k in 0..times {
        ask(&mut graph, k, k)?;
    }
    Ok(graph)
}

// The height, the leaves and the length of a number; zeros where it isn't there.
fn numbers(graph: &TermGraph, a: u32) -> (u32, u64, u64) {
    if a > graph.nodes() {
        return (0, 0, 0);
    }
    let a = NodeId(a);
    (graph.height(a), graph.leaves(a), graph.length(a))
}

#[test]
fn forty_doublings_are_forty_products(rt: HostRuntime) -> Result<(), Fail> {
    let graph = doubled(rt.alloc(), 40)?;
    assert_eq!(rt; graph.nodes(), 40);
    assert_eq!(rt;
        numbers(&graph, 40),
        (40, 1 << 40, 6_078_832_729_528_464_400)
    );
    Ok(())
}

#[test]
fn numbers_past_64_bits_are_given_as_the_greatest(rt: HostRuntime) -> Result<(), Fail> {
    let graph = doubled(rt.alloc(), 70)?;
    assert_eq!(rt; numbers(&graph, 70), (70, u64::MAX, u64::MAX));
    Ok(())
}

#[test]
fn a_pair_that_is_there_gives_its_number(rt: HostRuntime) -> Result<(), Fail> {
    let mut graph = TermGraph::new(rt.alloc())?;
    for (a, b, want) in [
        (0, 0, 1),
        (0, 1, 2),
        (1, 0, 3),
        (0, 0, 1),
        (2, 3, 4),
        (1, 0, 3),
    ] {
        let number = ask(&mut graph, a, b)?;
        assert_eq!(rt; number.index(), want, "at {a} {b}");
    }
    assert_eq!(rt; graph.nodes(), 4);
    Ok(())
}

// The places of the parts of a number; nothing where it isn't there.
fn parts(graph: &TermGraph, a: u32) -> Option<(usize, usize)> {
    if a > graph.nodes() {
        return None;
    }
    let (left, right) = graph.children(NodeId(a))?;
    Some((left.index(), right.index()))
}

// Whether two numbers are there and stand for one term.
fn are_equal(graph: &TermGraph, a: u32, b: u32) -> bool {
    a.max(b) <= graph.nodes() && graph.equal(NodeId(a), NodeId(b))
}

#[test]
fn a_product_has_the_parts_that_it_was_made_of(rt: HostRuntime) -> Result<(), Fail> {
    let mut graph = doubled(rt.alloc(), 2)?;
    ask(&mut graph, 2, 1)?;
    for (a, want) in [
        (0, None),
        (1, Some((0, 0))),
        (2, Some((1, 1))),
        (3, Some((2, 1))),
    ] {
        assert_eq!(rt; parts(&graph, a), want, "at {a}");
    }
    for (a, b) in [(0, 0), (1, 3), (3, 3)] {
        assert_eq!(rt; are_equal(&graph, a, b), a == b, "at {a} {b}");
    }
    Ok(())
}

// The strict text of a number; nothing where it isn't there.
fn spelled(alloc: Global, graph: &TermGraph, a: u32) -> Result<Vec<u8>, AllocError> {
    if a > graph.nodes() || graph.leaves(NodeId(a)) > 100_001 {
        return Ok(Vec::new(alloc));
    }
    graph.strict_text(alloc, NodeId(a))
}

#[test]
fn the_strict_text_has_all_brackets(rt: HostRuntime) -> Result<(), Fail> {
    let alloc = rt.alloc();
    let mut graph = doubled(alloc, 1)?;
    ask(&mut graph, 0, 1)?;
    ask(&mut graph, 1, 0)?;
    let cases: [(u32, &[u8]); 4] = [
        (0, b"x"),
        (1, b"(x*x)"),
        (2, b"(x*(x*x))"),
        (3, b"((x*x)*x)"),
    ];
    for (a, want) in cases {
        let text = spelled(alloc, &graph, a)?;
        assert_eq!(rt; text.as_slice(), want, "at {a}");
    }
    Ok(())
}

#[test]
fn the_bounds_are_on_new_products_alone(rt: HostRuntime) -> Result<(), Fail> {
    let mut graph = doubled(rt.alloc(), 1_000)?;
    assert_eq!(rt; numbers(&graph, 1_000).0, 1_000);
    assert_eq!(rt; ask(&mut graph, 1_000, 0), Err(GraphErr::TooDeep));
    assert_eq!(rt; ask(&mut graph, 0, 1_000), Err(GraphErr::TooDeep));
    for k in 0..200_000 {
        if graph.nodes() < MAX_NODES {
            ask(&mut graph, k / 1_000, k % 1_000)?;
        }
    }
    assert_eq!(rt; graph.nodes(), 100_000);
    assert_eq!(rt; ask(&mut graph, 2_000, 2_000), Err(GraphErr::Full));
    assert_eq!(rt; ask(&mut graph, 1_000, 0), Err(GraphErr::TooDeep));
    assert_eq!(rt; ask(&mut graph, 0, 0), Ok(NodeId(1)));
    assert_eq!(rt; graph.nodes(), 100_000);
    Ok(())
}

// The name that some bytes are.
fn name_of(bytes: &[u8]) -> Result<Name, Fail> {
    Ok(Name::read(bytes).ok_or(NameErr::Memory)?)
}

#[test]
fn a_name_is_defined_once(rt: HostRuntime) -> Result<(), Fail> {
    let mut names = Names::new(rt.alloc());
    let (a, b) = (name_of(b"a")?, name_of(b"b1")?);
    assert_eq!(rt; names.find(&a), None);
    names.define(a, NodeId(3))?;
    names.define(b, NodeId(0))?;
    assert_eq!(rt; names.define(a, NodeId(4)), Err(NameErr::Twice));
    assert_eq!(rt; names.find(&a), Some(NodeId(3)));
    assert_eq!(rt; names.find(&b), Some(NodeId(0)));
    Ok(())
}
