ghost use Rattle.std.specs.Prelude.{◌≡◌, ◌<◌, length, IfOk, IfErr, OnOk};
ghost use Rattle.ld_term.specs.Terms.{derived, IsEquivalent};
ghost use Rattle.term_graph.specs.Asks.{answered, ask_all, IsRefusal, IsStopped};
ghost use Rattle.term_graph.specs.Requests.{IsFront};
ghost use Rattle.term_graph.specs.TermLists.{term_at};
ghost use Rattle.term_expand.specs.Memos.{requests, IsMade, IsMemo};
ghost use Rattle.term_expand.specs.Requests.{derive_requests};
ghost use Rattle.term_expand.specs.declared.memo.Work.TheVariants.{Derivation};

use crate::distribution::distribute_by;
use crate::memo::{Memo, Work};
use std::alloc::Global;
use term_graph::{GraphErr, NodeId, TermGraph};

// Derives a term, each part of which is gone over once.
//
// No call is deeper than the term is high.
fn derive_by(graph: &mut TermGraph, memo: &mut Memo, node: NodeId) -> Result<NodeId, GraphErr>
    requires there { node < length graph.old }
    requires memo { IsMemo graph.old memo.old }
    ensures made { IfOk result (IsMade graph.old graph.new (Derivation node)) }
    ensures stopped { IfErr result (IsStopped graph.old graph.new (requests graph.old (Derivation node))) }
    ensures kept { IsFront graph.old graph.new }
    ensures memo { OnOk result (IsMemo graph.new memo.new) }
{
    let Some((left, right)) = graph.children(node) else {
        return Ok(node);
    };
    let work = Work::Derivation(node.index());
    if let Some(number) = memo.find(work) {
        return Ok(number);
    }
    let left = derive_by(graph, memo, left)?;
    let right = derive_by(graph, memo, right)?;
    let number = distribute_by(graph, memo, left, right)?;
    memo.remember(work, number)?;
    Ok(number)
}

/// The number of a term's derived term, which is equivalent to it.
///
/// The derived term of x is x, and that of a product is the derived term of its left part distributed over
/// that of its right part. A distribution that comes twice is made once. After a refusal the products that
/// were made stay.
/// After P. Dehornoy, Braids and Self-Distributivity, 2000.
pub fn derive(alloc: Global, graph: &mut TermGraph, node: NodeId) -> Result<NodeId, GraphErr>
    requires { node < length graph.old }
    ensures term { IfOk result
        (λ n. (n < length graph.new) × (term_at graph.new n ≡ derived (term_at graph.old node))) }
    ensures equivalent { IfOk result (λ n. IsEquivalent (term_at graph.old node) (term_at graph.new n)) }
    ensures asked { OnOk result
        (ask_all (answered graph.old) (derive_requests (term_at graph.old node)) ≡ answered graph.new) }
    ensures refused { IfErr result
        (IsRefusal (ask_all (answered graph.old) (derive_requests (term_at graph.old node)))) }
    ensures stopped { IfErr result
        (IsStopped graph.old graph.new (derive_requests (term_at graph.old node))) }
    ensures kept { IsFront graph.old graph.new }
{
    let mut memo = Memo::new(alloc);
    derive_by(graph, &mut memo, node)
}
