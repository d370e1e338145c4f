ghost use Rattle.std.specs.Prelude.{◌≡◌, ◌<◌, length, IfOk, IfErr, OnOk};
ghost use Rattle.ld_term.specs.Terms.{multiply, distributed, IsEquivalent};
ghost use Rattle.term_graph.specs.Asks.{answered, ask_all, IsRefusal, IsStopped};
ghost use Rattle.term_graph.specs.Requests.{IsFront};
ghost use Rattle.term_graph.specs.TermLists.{term_at};
ghost use Rattle.term_expand.specs.Memos.{requests, IsMade, IsMemo};
ghost use Rattle.term_expand.specs.Requests.{distribute_requests};
ghost use Rattle.term_expand.specs.declared.memo.Work.TheVariants.{Distribution};

use crate::memo::{Memo, Work};
use std::alloc::Global;
use term_graph::{GraphErr, NodeId, TermGraph};

// Distributes the first term over the second, each part of which is gone over once.
//
// No call is deeper than the second term is high.
pub(crate) fn distribute_by(
    graph: &mut TermGraph,
    memo: &mut Memo,
    a: NodeId,
    b: NodeId,
) -> Result<NodeId, GraphErr>
    requires left { a < length graph.old }
    requires right { b < length graph.old }
    requires memo { IsMemo graph.old memo.old }
    ensures made { IfOk result (IsMade graph.old graph.new (Distribution a b)) }
    ensures stopped { IfErr result (IsStopped graph.old graph.new (requests graph.old (Distribution a b))) }
    ensures kept { IsFront graph.old graph.new }
    ensures memo { OnOk result (IsMemo graph.new memo.new) }
{
    let Some((left, right)) = graph.children(b) else {
        return graph.product(a, b);
    };
    let work = Work::Distribution(a.index(), b.index());
    if let Some(number) = memo.find(work) {
        return Ok(number);
    }
    let left = distribute_by(graph, memo, a, left)?;
    let right = distribute_by(graph, memo, a, right)?;
    let number = graph.product(left, right)?;
    memo.remember(work, number)?;
    Ok(number)
}

/// The number of the second term with the first multiplied from the left to each of its leaves, which is
/// equivalent to their product.
///
/// Its products are asked for leaf by leaf from the left, each behind its parts. It takes as many steps as
/// the second term has different parts. After a refusal the products that were made stay.
/// After P. Dehornoy, Braids and Self-Distributivity, 2000.
pub fn distribute(
    alloc: Global,
    graph: &mut TermGraph,
    a: NodeId,
    b: NodeId,
) -> Result<NodeId, GraphErr>
    requires left { a < length graph.old }
    requires right { b < length graph.old }
    ensures term { IfOk result
        (λ n. (n < length graph.new)
        × (term_at graph.new n ≡ distributed (term_at graph.old a) (term_at graph.old b))) }
    ensures equivalent { IfOk result
        (λ n. IsEquivalent (multiply (term_at graph.old a) (term_at graph.old b)) (term_at graph.new n)) }
    ensures asked { OnOk result
        (ask_all (answered graph.old) (distribute_requests (term_at graph.old a) (term_at graph.old b))
        ≡ answered graph.new) }
    ensures refused { IfErr result
        (IsRefusal (ask_all (answered graph.old)
        (distribute_requests (term_at graph.old a) (term_at graph.old b)))) }
    ensures stopped { IfErr result
        (IsStopped graph.old graph.new (distribute_requests (term_at graph.old a) (term_at graph.old b))) }
    ensures kept { IsFront graph.old graph.new }
{
    let mut memo = Memo::new(alloc);
    distribute_by(graph, &mut memo, a, b)
}
