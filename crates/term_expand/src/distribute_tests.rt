// Worked distributions and derivations, shared parts, and a derived term that is too high.
ghost use Rattle.std.specs.Prelude.{◌<◌, length, IsTrue};

use crate::{derive, distribute};
use std::alloc::{AllocError, Global};
use std::test::Fail;
use term_graph::{GraphErr, NodeId, TermGraph};

// Whether a number is one of the graph, of which no proof knows it.
fn is_there(graph: &TermGraph, node: NodeId) -> bool
    ensures { IsTrue result → node < length graph.now }
{
    node.index() <= graph.nodes() as usize
}

// So many products, each of the one before it with itself.
fn doubled(graph: &mut TermGraph, times: u32) -> Result<NodeId, GraphErr> {
    let mut node = graph.var();
    for _ in 0..times {
        if is_there(graph, node) {
            node = graph.product(node, node)?;
        }
    }
    Ok(node)
}

// The first term distributed over the second; x where one of them isn't there.
fn distributed(
    alloc: Global,
    graph: &mut TermGraph,
    a: NodeId,
    b: NodeId,
) -> Result<NodeId, GraphErr> {
    if !is_there(graph, a) || !is_there(graph, b) {
        return Ok(graph.var());
    }
    distribute(alloc, graph, a, b)
}

// The derived term; x where the term isn't there.
fn derived(alloc: Global, graph: &mut TermGraph, node: NodeId) -> Result<NodeId, GraphErr> {
    if !is_there(graph, node) {
        return Ok(graph.var());
    }
    derive(alloc, graph, node)
}

// The height of a term; 0 where it isn't there.
fn height(graph: &TermGraph, node: NodeId) -> u32 {
    if !is_there(graph, node) {
        return 0;
    }
    graph.height(node)
}

// The strict text of a term; nothing where it isn't there.
fn spelled(alloc: Global, graph: &TermGraph, node: NodeId) -> Result<Vec<u8>, AllocError> {
    if !is_there(graph, node) || graph.leaves(node) > 100_001 {
        return Ok(Vec::new(alloc));
    }
    graph.strict_text(alloc, node)
}

#[test]
fn small_terms_are_distributed_and_derived(rt: HostRuntime) -> Result<(), Fail> {
    let alloc = rt.alloc();
    let mut graph = TermGraph::new(alloc)?;
    let x = graph.var();
    let square = doubled(&mut graph, 1)?;
    let fourth = doubled(&mut graph, 2)?;
    let cases: [(NodeId, &[u8]); 3] = [
        (distributed(alloc, &mut graph, x, square)?, b"((x*x)*(x*x))"),
        (derived(alloc, &mut graph, x)?, b"x"),
        (
            derived(alloc, &mut graph, fourth)?,
            b"(((x*x)*x)*((x*x)*x))",
        ),
    ];
    for (node, want) in cases {
        let text = spelled(alloc, &graph, node)?;
        assert_eq!(rt; text.as_slice(), want, "at {}", node.index());
    }
    Ok(())
}

#[test]
fn shared_parts_are_gone_over_once(rt: HostRuntime) -> Result<(), Fail> {
    let alloc = rt.alloc();
    let mut graph = TermGraph::new(alloc)?;
    let last = doubled(&mut graph, 40)?;
    let over = distributed(alloc, &mut graph, last, last)?;
    assert_eq!(rt; height(&graph, over), 81);
    assert_eq!(rt; graph.nodes(), 81);
    Ok(())
}

#[test]
fn a_derived_term_may_be_too_high(rt: HostRuntime) -> Result<(), Fail> {
    let alloc = rt.alloc();
    let mut graph = TermGraph::new(alloc)?;
    let ninth = doubled(&mut graph, 9)?;
    let tenth = doubled(&mut graph, 10)?;
    let of_ninth = derived(alloc, &mut graph, ninth)?;
    assert_eq!(rt; height(&graph, of_ninth), 511);
    assert_eq!(rt; derived(alloc, &mut graph, tenth), Err(GraphErr::TooDeep));
    for (node, want) in [(ninth, 9), (tenth, 10), (of_ninth, 511)] {
        assert_eq!(rt; height(&graph, node), want);
    }
    let square = doubled(&mut graph, 1)?;
    let text = spelled(alloc, &graph, square)?;
    assert_eq!(rt; text.as_slice(), b"(x*x)".as_slice());
    Ok(())
}
