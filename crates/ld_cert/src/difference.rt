// Laver tables that tell two terms apart.
ghost use Rattle.std.specs.Prelude.{◌≡◌, ◌<◌, ◌≤◌, length, IfOk, IfSome};
ghost use Rattle.std.specs.Bool.{Decides};
ghost use Rattle.ld_term.specs.Terms.{IsEquivalent};
ghost use Rattle.laver_table.specs.declared.TheConstants.{MAX_EXPONENT};
ghost use Rattle.term_graph.specs.TermLists.{term_at};
ghost use Rattle.term_eval.specs.Values.{value_of};
ghost use Rattle.ld_cert.specs.Differences.{AreAlikeIn, IsLeastApart};

use laver_table::Table;
use std::alloc::{AllocError, Global};
use std::marker::Brand;
use std::sync::ledger::{Blank, Ledger};
use term_eval::value;
use term_graph::{NodeId, TermGraph};
use wb_base::Steps;

// The value of a term in a table, with the counter of a ledger.
fn value_counted<L: Ledger>(
    alloc: Global,
    graph: &TermGraph,
    node: NodeId,
    table: &Table,
    blank: Blank,
) -> Result<u32, AllocError>
    requires number { node < length graph.now }
    requires name { blank.name ≡ L.name }
    requires parts { blank.parts ≡ L.parts }
    requires shared { 0 < blank.parts }
    ensures { IfOk result (λ v. v ≡ value_of table.now (term_at graph.now node)) }
{
    let mut steps = Steps::<L>::new(blank);
    value(alloc, graph, node, table, &mut steps)
}

/// Whether two terms have one value in the Laver table of size 2^n.
pub(crate) fn are_alike(
    alloc: Global,
    graph: &TermGraph,
    a: NodeId,
    b: NodeId,
    n: u32,
) -> Result<bool, AllocError>
    requires left { a < length graph.now }
    requires right { b < length graph.now }
    requires exponent { n ≤ MAX_EXPONENT }
    ensures { IfOk result
        (λ alike. Decides alike (AreAlikeIn n (term_at graph.now a) (term_at graph.now b))) }
{
    let table = Table::build(alloc, n)?;
    let left = value_counted::<Brand>(alloc, graph, a, &table, Blank::new(1))?;
    let right = value_counted::<Brand>(alloc, graph, b, &table, Blank::new(1))?;
    Ok(left == right)
}

/// The least m up to n such that two terms have two values in the Laver table of size 2^m, if there is one.
///
/// Then the terms aren't equivalent. Where there is none, nothing is known of that. Each table takes at most
/// as many products as the two terms have different ones. After Laver, On the algebra of elementary
/// embeddings of a rank into itself.
pub fn differ(
    alloc: Global,
    graph: &TermGraph,
    a: NodeId,
    b: NodeId,
    n: u32,
) -> Result<Option<u32>, AllocError>
    requires left { a < length graph.now }
    requires right { b < length graph.now }
    requires exponent { n ≤ MAX_EXPONENT }
    ensures least { IfOk result (λ found. IsLeastApart n (term_at graph.now a) (term_at graph.now b) found) }
    ensures apart { IfOk result
        (λ found. IfSome found (λ _. IsEquivalent (term_at graph.now a) (term_at graph.now b) → ⊥)) }
{
    for m in 0..=n {
        if !are_alike(alloc, graph, a, b, m)? {
            return Ok(Some(m));
        }
    }
    Ok(None)
}
