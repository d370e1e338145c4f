ghost use Rattle.std.specs.Prelude.{◌≡◌, ℕ, ◌+◌, ◌<◌, ◌≤◌, List, IfOk, length};
ghost use Rattle.ld_term.specs.Terms.{Term, IsEquivalent};
ghost use Rattle.laver_table.specs.Table.{IsUpTo, IsLaver};
ghost use Rattle.term_graph.specs.TermLists.{term_at, IsGraph};
ghost use Rattle.term_graph.specs.Listings.{products, add_new, distinct_products};
ghost use Rattle.term_eval.specs.Values.{value_of};
ghost use Rattle.term_eval.specs.Memos.{IsMemo};

use laver_table::Table;
use std::alloc::{AllocError, Global};
use std::sync::ledger::Ledger;
use term_graph::{NodeId, TermGraph};
use wb_base::Steps;

// The value of a term, and those of its products into the places of their numbers, where 0 is for a value
// that
// isn't known.
//
// No call is deeper than the term is high.
fn value_by<L: Ledger>(
    graph: &TermGraph,
    node: NodeId,
    table: &Table,
    known: &mut [u32],
    steps: &mut Steps<L>,
) -> u32
    requires there { node < length known.old }
    requires graph { IsGraph graph.now }
    requires laver { (n : ℕ) × IsLaver n table.now }
    requires memo { (listed : List Term) × IsMemo graph.now table.now known.old listed }
    ensures value { result ≡ value_of table.now (term_at graph.now node) }
    ensures room { length known.new ≡ length known.old }
    ensures memo { (listed : List Term) → IsMemo graph.now table.now known.old listed
        → IsMemo graph.now table.now known.new (add_new listed (products (term_at graph.now node))) }
    ensures cost { (listed : List Term) → IsMemo graph.now table.now known.old listed
        → steps.new + length listed ≡ steps.old
        + length (add_new listed (products (term_at graph.now node))) }
{
    let Some((left, right)) = graph.children(node) else {
        return 1;
    };
    let found = known[node.index()];
    if found != 0 {
        return found;
    }
    let left = value_by(graph, left, table, known, steps);
    let right = value_by(graph, right, table, known, steps);
    let value = table.product(left, right, steps);
    known[node.index()] = value;
    value
}

/// The value of a term in a Laver table, where that of the variable is 1.
///
/// Each different product of the term takes one product of the table, however often it stands in the term.
/// After Laver, On the algebra of elementary embeddings of a rank into itself.
pub fn value<L: Ledger>(
    alloc: Global,
    graph: &TermGraph,
    node: NodeId,
    table: &Table,
    steps: &mut Steps<L>,
) -> Result<u32, AllocError>
    requires { node < length graph.now }
    ensures value { IfOk result (λ v. v ≡ value_of table.now (term_at graph.now node)) }
    ensures up_to { IfOk result (λ v. IsUpTo (length table.now) v) }
    ensures cost { steps.new ≤ steps.old + length (distinct_products (term_at graph.now node)) }
    ensures equivalent { IfOk result (λ v. (t : Term) → IsEquivalent t (term_at graph.now node)
        → value_of table.now t ≡ v) }
{
    // Their contracts say that the graph's terms are different, and that the table is left-distributive.
    let _ = (graph.nodes(), table.size());
    let mut known = vec![in alloc; 0; node.index() + 1]?;
    Ok(value_by(graph, node, table, &mut known, steps))
}
