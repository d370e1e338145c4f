ghost use Rattle.std.specs.Prelude.{◌≡◌, ◌<◌, [], length, IfOk, IfErr, OnOk, IsErrOf};
ghost use Rattle.ld_term.specs.Terms.{Expands};
ghost use Rattle.term_graph.specs.TermLists.{term_at};
ghost use Rattle.term_graph.specs.Asks.{answered, ask_all};
ghost use Rattle.term_graph.specs.Requests.{IsFront};
ghost use Rattle.term_expand.specs.Expansions.{IsAddress, expanded, no_place, not_expandable, expansion_at, IsExpandRefusal, IsExpandStopped};
ghost use Rattle.term_expand.specs.Requests.{expand_requests};
ghost use Rattle.term_expand.specs.Outcomes.{Outcome};

use crate::error::ExpandErr;
use std::alloc::Global;
use term_graph::{NodeId, TermGraph};

// Expands the term itself.
fn expand_here(graph: &mut TermGraph, node: NodeId) -> Result<NodeId, ExpandErr>
    requires { node < length graph.old }
    ensures { Outcome graph.old [] (term_at graph.old node) graph.new result }
{
    let Some((left, right)) = graph.children(node) else {
        return Err(ExpandErr::NotExpandable);
    };
    let Some((middle, last)) = graph.children(right) else {
        return Err(ExpandErr::NotExpandable);
    };
    let first = graph.product(left, middle)?;
    let second = graph.product(left, last)?;
    Ok(graph.product(first, second)?)
}

// Goes down to the place, and asks for the products above it on the way back. A fault of the address is met
// on the way down, before any request. No call is deeper than the address is long.
fn expand_at(graph: &mut TermGraph, node: NodeId, address: &[u8]) -> Result<NodeId, ExpandErr>
    requires { node < length graph.old }
    ensures { Outcome graph.old address.now (term_at graph.old node) graph.new result }
{
    let Some((side, rest)) = address.split_first() else {
        return expand_here(graph, node);
    };
    let Some((left, right)) = graph.children(node) else {
        return Err(ExpandErr::NoPlace);
    };
    if *side == b'0' {
        let part = expand_at(graph, left, rest)?;
        Ok(graph.product(part, right)?)
    } else {
        let part = expand_at(graph, right, rest)?;
        Ok(graph.product(left, part)?)
    }
}

/// The number of a term that is expanded at an address: its part t*(u*v) there is replaced by (t*u)*(t*v).
///
/// The expansion asks for the products t*u, t*v and (t*u)*(t*v), and then for those above them up to the
/// whole term, a part's product first; what the term shares with others stays as it is. After a refusal the
/// products that were made stay. The place is found before any request, so that a fault of the address leaves
/// the graph as it was. Only new products need memory, which the graph takes from its own allocator, so
/// `alloc` isn't used.
pub fn expand(
    alloc: Global,
    graph: &mut TermGraph,
    node: NodeId,
    address: &[u8],
) -> Result<NodeId, ExpandErr>
    requires number { node < length graph.old }
    requires address { IsAddress address.now }
    ensures number { IfOk result (λ n. n < length graph.new) }
    ensures term { IfOk result
        (λ n. expansion_at address.now (term_at graph.old node) ≡ expanded (term_at graph.new n)) }
    ensures expands { IfOk result (λ n. Expands (term_at graph.old node) (term_at graph.new n)) }
    ensures asked { OnOk result
        (ask_all (answered graph.old) (expand_requests address.now (term_at graph.old node))
        ≡ answered graph.new) }
    ensures refused { IfErr result
        (IsExpandRefusal (expansion_at address.now (term_at graph.old node))
        (ask_all (answered graph.old) (expand_requests address.now (term_at graph.old node)))) }
    ensures no_place { expansion_at address.now (term_at graph.old node) ≡ no_place
        → IsErrOf result ExpandErr.NoPlace }
    ensures not_expandable { expansion_at address.now (term_at graph.old node) ≡ not_expandable
        → IsErrOf result ExpandErr.NotExpandable }
    ensures stopped { IfErr result
        (IsExpandStopped graph.old graph.new (expand_requests address.now (term_at graph.old node))) }
    ensures kept { IsFront graph.old graph.new }
{
    expand_at(graph, node, address)
}
