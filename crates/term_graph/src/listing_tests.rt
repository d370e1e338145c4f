// Worked listings, and what a fault of the sink leaves of one.
ghost use Rattle.std.specs.Prelude.{IfOk};
ghost use Rattle.term_graph.specs.Listings.{IsListing};

use crate::{GraphErr, Listing, NodeId, TermGraph, put_listing, read_terms};
use std::alloc::Global;
use std::test::Fail;
use wb_base::MemSink;

// The listing of a number of which no proof knows that it is there.
fn listing_of(alloc: Global, graph: &TermGraph, number: NodeId) -> Result<Listing, GraphErr>
    ensures { IfOk result (λ l. IsListing graph.now l.root l.numbers) }
{
    if number.index() > graph.nodes() as usize {
        return Err(GraphErr::Memory);
    }
    Ok(Listing::make(alloc, graph, number)?)
}

#[test]
fn each_product_has_one_line(rt: HostRuntime) -> Result<(), Fail> {
    let alloc = rt.alloc();
    let cases: [(&[u8], u32, &[u8]); 6] = [
        (b"x", 0, b"x\n"),
        (b"x*(x*x)", 2, b"t1 = (x*x)\nt2 = (x*t1)\nt2\n"),
        (b"(x*x)*(x*x)", 2, b"t1 = (x*x)\nt2 = (t1*t1)\nt2\n"),
        (
            b"((x*x)*x)*((x*x)*x)",
            3,
            b"t1 = (x*x)\nt2 = (t1*x)\nt3 = (t2*t2)\nt3\n",
        ),
        (
            b"((x*x)*x)*(x*(x*x))",
            4,
            b"t1 = (x*x)\nt2 = (t1*x)\nt3 = (x*t1)\nt4 = (t2*t3)\nt4\n",
        ),
        // The graph has a product more, which is no part of the term.
        (b"a = x*(x*x)\n(x*x)*x", 2, b"t1 = (x*x)\nt2 = (t1*x)\nt2\n"),
    ];
    for (bytes, count, want) in cases {
        let file = read_terms(alloc, bytes, 1)?;
        let listing = listing_of(alloc, &file.graph, file.first)?;
        assert_eq!(rt; listing.count(), count, "of {bytes:?}");
        let mut sink = MemSink::new(alloc, 100, 3, &[])?;
        put_listing(&mut sink, &file.graph, &listing)?;
        assert_eq!(rt; sink.bytes(), want, "of {bytes:?}");
    }
    Ok(())
}

// The product of a number with itself, where no proof knows that it is there.
fn doubled(graph: &mut TermGraph, number: NodeId) -> Result<NodeId, GraphErr> {
    if number.index() > graph.nodes() as usize {
        return Err(GraphErr::Memory);
    }
    graph.product(number, number)
}

#[test]
fn forty_doublings_have_forty_lines(rt: HostRuntime) -> Result<(), Fail> {
    let alloc = rt.alloc();
    let mut graph = TermGraph::new(alloc)?;
    let mut number = graph.var();
    for _ in 0..40 {
        number = doubled(&mut graph, number)?;
    }
    let listing = listing_of(alloc, &graph, number)?;
    assert_eq!(rt; listing.count(), 40);
    Ok(())
}

#[test]
fn a_fault_leaves_a_front_of_the_text(rt: HostRuntime) -> Result<(), Fail> {
    let alloc = rt.alloc();
    let file = read_terms(alloc, b"x*(x*x)", 1)?;
    let listing = listing_of(alloc, &file.graph, file.first)?;
    let mut sink = MemSink::new(alloc, 100, 100, &[5])?;
    let result = put_listing(&mut sink, &file.graph, &listing);
    assert_eq!(rt; result.is_err(), true);
    assert_eq!(rt; sink.bytes(), b"t1 = (x*".as_slice());
    Ok(())
}
