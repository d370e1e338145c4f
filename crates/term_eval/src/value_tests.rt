// Worked values in tables, and terms that are large or high.
ghost use Rattle.std.specs.Prelude.{◌≡◌, ◌+◌, ◌<◌, ◌≤◌, length};
ghost use Rattle.term_graph.specs.TermLists.{product_count};

use crate::tests::product_of;
use crate::value;
use laver_table::Table;
use std::alloc::{AllocError, Global};
use std::marker::Brand;
use std::sync::ledger::{Blank, Ledger};
use std::test::Fail;
use term_graph::{NodeId, TermGraph};
use wb_base::Steps;

// The value, which takes no more products of the table than the graph has.
fn value_by_few<L: Ledger>(
    alloc: Global,
    graph: &TermGraph,
    node: NodeId,
    table: &Table,
    steps: &mut Steps<L>,
) -> Result<u32, AllocError>
    requires { node < length graph.now }
    ensures { steps.new ≤ steps.old + product_count graph.now }
{
    let _ = graph.nodes();
    value(alloc, graph, node, table, steps)
}

// The value, in the table of size 2^n, of a term of which no proof knows that it is there.
fn value_in<L: Ledger>(
    alloc: Global,
    blank: Blank,
    n: u32,
    graph: &TermGraph,
    node: NodeId,
) -> Result<u32, AllocError>
    requires name { blank.name ≡ L.name }
    requires parts { blank.parts ≡ L.parts }
    requires shared { 0 < blank.parts }
    requires small { n ≤ 14 }
{
    if node.index() > graph.nodes() as usize {
        return Err(AllocError);
    }
    let mut steps = Steps::<L>::new(blank);
    let table = Table::build(alloc, n)?;
    value_by_few(alloc, graph, node, &table, &mut steps)
}

#[test]
fn gives_the_values_of_small_terms(rt: HostRuntime) -> Result<(), Fail> {
    let alloc = rt.alloc();
    let mut graph = TermGraph::new(alloc)?;
    let x = graph.var();
    let square = product_of(&mut graph, x, x)?;
    let left = product_of(&mut graph, square, x)?;
    let right = product_of(&mut graph, x, square)?;
    let both = product_of(&mut graph, square, square)?;
    let cases = [(x, 1), (square, 2), (left, 3), (right, 4), (both, 4)];
    for (node, want) in cases {
        let found = value_in::<Brand>(alloc, Blank::new(1), 3, &graph, node)?;
        assert_eq!(rt; found, want, "in size 8");
        let found = value_in::<Brand>(alloc, Blank::new(1), 0, &graph, node)?;
        assert_eq!(rt; found, 1, "in size 1");
    }
    Ok(())
}

#[test]
fn a_term_of_many_leaves_takes_as_many_products_as_differ(rt: HostRuntime) -> Result<(), Fail> {
    let alloc = rt.alloc();
    let mut graph = TermGraph::new(alloc)?;
    let mut node = graph.var();
    for _ in 0..40 {
        node = product_of(&mut graph, node, node)?;
    }
    assert_eq!(rt; graph.nodes(), 40);
    for (n, want) in [(0, 1), (1, 2), (3, 8), (4, 16), (14, 16_384)] {
        let found = value_in::<Brand>(alloc, Blank::new(1), n, &graph, node)?;
        assert_eq!(rt; found, want, "in size 2^{n}");
    }
    Ok(())
}

#[test]
fn terms_as_high_as_may_be_have_values(rt: HostRuntime) -> Result<(), Fail> {
    let alloc = rt.alloc();
    let mut graph = TermGraph::new(alloc)?;
    let x = graph.var();
    let mut left = x;
    let mut right = x;
    for _ in 0..1_000 {
        left = product_of(&mut graph, left, x)?;
        right = product_of(&mut graph, x, right)?;
    }
    for (n, node, want) in [
        (3, left, 1),
        (3, right, 8),
        (10, left, 1_001),
        (14, left, 1_001),
    ] {
        let found = value_in::<Brand>(alloc, Blank::new(1), n, &graph, node)?;
        assert_eq!(rt; found, want, "in size 2^{n}");
    }
    Ok(())
}
