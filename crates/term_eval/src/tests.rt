// Worked braid words, and the refusals at their limits.
use crate::{EvalErr, eval, law_braid_word, law_equivalent_braids, law_less_braid};
use braid_word::{Letter, MAX_LETTERS, Word, read_word};
use std::alloc::Global;
use std::test::Fail;
use term_graph::{GraphErr, NodeId, TermGraph};

// The word of a term of which no proof knows that it is there.
fn word_of(alloc: Global, graph: &TermGraph, node: NodeId, limit: u32) -> Result<Word, EvalErr> {
    if node.index() > graph.nodes() as usize || limit as usize > MAX_LETTERS {
        return Err(EvalErr::Memory);
    }
    eval(alloc, graph, node, limit)
}

// The product of two terms of which no proof knows that they are there.
pub(crate) fn product_of(
    graph: &mut TermGraph,
    left: NodeId,
    right: NodeId,
) -> Result<NodeId, GraphErr> {
    let most = graph.nodes() as usize;
    if left.index() > most || right.index() > most {
        return Err(GraphErr::Memory);
    }
    graph.product(left, right)
}

#[test]
fn gives_the_words_of_small_terms(rt: HostRuntime) -> Result<(), Fail> {
    let alloc = rt.alloc();
    let mut graph = TermGraph::new(alloc)?;
    let x = graph.var();
    let square = product_of(&mut graph, x, x)?;
    let left = product_of(&mut graph, square, x)?;
    let right = product_of(&mut graph, x, square)?;
    let both = product_of(&mut graph, square, square)?;
    law_braid_word();
    law_equivalent_braids();
    law_less_braid();
    let cases: [(NodeId, &[u8]); 5] = [
        (x, b""),
        (square, b"1"),
        (left, b"1 1 -2"),
        (right, b"2 1"),
        (both, b"1 2 1 -2"),
    ];
    for (node, want) in cases {
        let want = read_word(alloc, want)?;
        let word = word_of(alloc, &graph, node, 9)?;
        assert_eq!(rt; word.letters(), want.letters());
    }
    Ok(())
}

#[test]
fn refuses_a_word_that_is_too_long_at_once(rt: HostRuntime) -> Result<(), Fail> {
    let alloc = rt.alloc();
    let mut graph = TermGraph::new(alloc)?;
    let mut node = graph.var();
    for height in 1..=300 {
        node = product_of(&mut graph, node, node)?;
        let length = match height {
            10 => 29_524,
            11 => 88_573,
            40 => 6_078_832_729_528_464_400,
            41 => 18_236_498_188_585_393_201,
            42 | 300 => u64::MAX,
            _ => continue,
        };
        let limit = if height > 11 {
            100_000
        } else {
            length as u32 - 1
        };
        let found = word_of(alloc, &graph, node, limit).err();
        assert_eq!(rt;
            found,
            Some(EvalErr::TooLong { length }),
            "at height {height}"
        );
    }
    Ok(())
}

#[test]
fn refuses_an_index_above_255(rt: HostRuntime) -> Result<(), Fail> {
    let alloc = rt.alloc();
    let mut graph = TermGraph::new(alloc)?;
    let x = graph.var();
    let mut node = x;
    for _ in 0..255 {
        node = product_of(&mut graph, x, node)?;
    }
    let mut want = Vec::new(alloc);
    for index in (1..=255).rev() {
        want.push(Letter::new(index, false))?;
    }
    let word = word_of(alloc, &graph, node, 255)?;
    assert_eq!(rt; word.letters(), want.as_slice());
    let higher = product_of(&mut graph, x, node)?;
    for (limit, want) in [
        (255, EvalErr::TooLong { length: 256 }),
        (256, EvalErr::Index),
        (1_000, EvalErr::Index),
    ] {
        assert_eq!(rt; word_of(alloc, &graph, higher, limit).err(), Some(want));
    }
    Ok(())
}
