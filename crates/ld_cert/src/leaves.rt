// The leaves of derived terms, which are counted without making them.
ghost use Rattle.std.specs.Prelude.{◌≡◌, ◌<◌, length, IfOk};
ghost use Rattle.term_graph.specs.TermLists.{term_at};
ghost use Rattle.ld_cert.specs.Derivations.{derived_leaves, AreCounted};

use std::alloc::{AllocError, Global};
use term_graph::{NodeId, TermGraph};

// Counts the leaves of the derived term of a term and of its parts, by their numbers. A part that isn't
// counted yet has 0.
//
// Each part is counted once: no call is deeper than the term is high.
fn count_leaves(graph: &TermGraph, node: NodeId, counts: &mut [u64]) -> u64
    requires there { node < length graph.now }
    requires counted { AreCounted graph.now counts.old }
    ensures counted { AreCounted graph.now counts.new }
    ensures leaves { result ≡ derived_leaves (term_at graph.now node) }
{
    let Some((left, right)) = graph.children(node) else {
        return 1;
    };
    let count = counts[node.index()];
    if count > 0 {
        return count;
    }
    let left = count_leaves(graph, left, counts);
    let right = count_leaves(graph, right, counts);
    // The left part stands before each leaf of the right one.
    let leaves = right.saturating_mul(left.saturating_add(1));
    counts[node.index()] = leaves;
    leaves
}

/// How many leaves the derived term of a term has, or the greatest number of 64 bits where it is above that.
pub(crate) fn derived_leaves(
    alloc: Global,
    graph: &TermGraph,
    node: NodeId,
) -> Result<u64, AllocError>
    requires { node < length graph.now }
    ensures { IfOk result (λ leaves. leaves ≡ derived_leaves (term_at graph.now node)) }
{
    let mut counts = vec![in alloc; 0; graph.nodes() as usize + 1]?;
    Ok(count_leaves(graph, node, counts.as_mut_slice()))
}
