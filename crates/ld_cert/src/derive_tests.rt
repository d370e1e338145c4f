// Worked certificates of terms and their derived terms, and the limit on the leaves of these.
use crate::{CertErr, derive_certificate};
use std::alloc::Global;
use std::test::Fail;
use term_graph::{GraphErr, NodeId, TermGraph};

// The product of two terms of which no proof knows that they are there.
fn product_of(graph: &mut TermGraph, left: NodeId, right: NodeId) -> Result<NodeId, GraphErr> {
    let most = graph.nodes() as usize;
    if left.index() > most || right.index() > most {
        return Err(GraphErr::Memory);
    }
    graph.product(left, right)
}

// The certificate of a term of which no proof knows that it is there.
fn certificate(alloc: Global, graph: &TermGraph, node: NodeId) -> Result<Vec<u8>, CertErr> {
    if node.index() > graph.nodes() as usize {
        return Err(CertErr::Memory);
    }
    derive_certificate(alloc, graph, node)
}

// The term with so many leaves each product of which has the variable on its right. It is its own derived
// term.
fn left_comb(graph: &mut TermGraph, leaves: u32) -> Result<NodeId, GraphErr> {
    let x = graph.var();
    let mut node = x;
    for _ in 1..leaves {
        node = product_of(graph, node, x)?;
    }
    Ok(node)
}

#[test]
fn certificates_are_written_of_small_terms(rt: HostRuntime) -> Result<(), Fail> {
    let alloc = rt.alloc();
    let mut graph = TermGraph::new(alloc)?;
    let x = graph.var();
    let square = product_of(&mut graph, x, x)?;
    let cube = product_of(&mut graph, x, square)?;
    let twice = product_of(&mut graph, square, square)?;
    let cases: [(NodeId, &[u8]); 3] = [
        (x, b"ld-certificate 1\nleft x\nright x\nyes\nend\n"),
        (
            cube,
            b"ld-certificate 1\nleft (x*(x*x))\nright ((x*x)*(x*x))\nyes\nl .\nend\n",
        ),
        (
            twice,
            b"ld-certificate 1\nleft ((x*x)*(x*x))\nright (((x*x)*x)*((x*x)*x))\nyes\nl .\nend\n",
        ),
    ];
    for (node, want) in cases {
        let text = certificate(alloc, &graph, node)?;
        assert_eq!(rt; text.as_slice(), want);
    }
    Ok(())
}

#[test]
fn parts_become_their_derived_terms_first(rt: HostRuntime) -> Result<(), Fail> {
    let alloc = rt.alloc();
    let mut graph = TermGraph::new(alloc)?;
    let x = graph.var();
    let square = product_of(&mut graph, x, x)?;
    let cube = product_of(&mut graph, x, square)?;
    let fourth = product_of(&mut graph, x, cube)?;
    let text = certificate(alloc, &graph, fourth)?;
    let lines = b"\nright (((x*x)*(x*x))*((x*x)*(x*x)))\nyes\nl .1\nl .\nl .0\nl .1\nend\n";
    assert!(rt; text.ends_with(lines.as_slice()));
    Ok(())
}

#[test]
fn derived_terms_have_300_leaves_at_most(rt: HostRuntime) -> Result<(), Fail> {
    let alloc = rt.alloc();
    let mut graph = TermGraph::new(alloc)?;
    // Of two combs of 11 and of 25 leaves the product's has 25 * 12, by 24 expansions.
    let left = left_comb(&mut graph, 11)?;
    let right = left_comb(&mut graph, 25)?;
    let largest = product_of(&mut graph, left, right)?;
    let text = certificate(alloc, &graph, largest)?;
    assert_eq!(rt; text.iter().filter(|byte| **byte == b'.').count(), 24);

    // Of combs of 42 and of 7 it has 7 * 43.
    let left = left_comb(&mut graph, 42)?;
    let right = left_comb(&mut graph, 7)?;
    let larger = product_of(&mut graph, left, right)?;
    let refused = certificate(alloc, &graph, larger).err();
    assert_eq!(rt; refused, Some(CertErr::TooLarge { leaves: 301 }));

    // Of 40 products, each of the one before it with itself, it has more than a number of 64 bits.
    let mut high = graph.var();
    for _ in 0..40 {
        high = product_of(&mut graph, high, high)?;
    }
    let refused = certificate(alloc, &graph, high).err();
    assert_eq!(rt; refused, Some(CertErr::TooLarge { leaves: u64::MAX }));
    Ok(())
}
