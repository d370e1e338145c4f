ghost use Rattle.std.specs.Prelude.{◌≡◌, ◌+◌, ◌<◌, ◌≤◌, ◌++◌, true, length, map, codes, decimal, slice_index_or, IfOk, OnOk};
ghost use Rattle.ld_term.specs.Terms.{Term, multiply};
ghost use Rattle.wb_base.specs.Streams.{HasCause, Puts};
ghost use Rattle.term_graph.specs.Asks.{has_term};
ghost use Rattle.term_graph.specs.TermLists.{term_at};
ghost use Rattle.term_graph.specs.Listings.{products, add_new, distinct_products, number_in, name_text, product_lines, listing_text, IsListing};
ghost use Rattle.term_graph.specs.Places.{IsBegun, parts_text, line_at};

use crate::graph::TermGraph;
use crate::node::NodeId;
use std::alloc::{AllocError, Global};
use std::marker::Model;
use wb_base::{Failed, Sink, give_all, put_numbered};

/// The different products of a term of a graph, in postorder of their first occurrences.
///
/// They are counted from 1: the first is a product of variables, and the last is the term itself, unless it
/// is the variable, which has none. There are as many as the graph has products of which the term is made,
/// however large it is as a tree.
#[derive(Drop)]
pub struct Listing {
    root: NodeId,
    numbers: Vec<NodeId>,
    // The place of each number of the graph, counted from 1, or 0 where it isn't listed.
    places: Vec<u32>,
}

impl Model for Listing {
    ghost use Rattle.std.specs.Prelude.{◌≤◌, length};
    ghost use Rattle.term_graph.specs.declared.TheConstants.{MAX_NODES};
    ghost use Rattle.term_graph.specs.Listings.{Listed};
    ghost use Rattle.term_graph.specs.Places.{IsPlaced};

    ghost Value = { Listed };

    ghost view = { λ s. record { root = s.root; numbers = s.numbers.items } };

    ghost invariant = { λ s. IsPlaced s.numbers.items s.places.items × (length s.numbers.items ≤ MAX_NODES) };
}

// Lists the products of a term that aren't listed yet.
//
// Parts of a listed product are listed, so each product is gone through once. No call is deeper than the term
// is high.
fn list_products(
    graph: &TermGraph,
    a: NodeId,
    numbers: &mut Vec<NodeId>,
    places: &mut [u32],
) -> Result<(), AllocError>
    requires there { a < length graph.now }
    requires begun { IsBegun graph.now numbers.old.items places.old }
    ensures begun { OnOk result (IsBegun graph.now numbers.new.items places.new) }
    ensures listed { OnOk result
        (map (term_at graph.now) numbers.new.items
        ≡ add_new (map (term_at graph.now) numbers.old.items) (products (term_at graph.now a))) }
{
    if places[a.index()] > 0 {
        return Ok(());
    }
    let Some((left, right)) = graph.children(a) else {
        return Ok(());
    };
    list_products(graph, left, numbers, places)?;
    list_products(graph, right, numbers, places)?;
    numbers.push(a)?;
    places[a.index()] = numbers.len() as u32;
    Ok(())
}

impl Listing {
    /// The listing of a term. It goes through each different product once.
    pub fn make(alloc: Global, graph: &TermGraph, a: NodeId) -> Result<Listing, AllocError>
        requires { a < length graph.now }
        ensures root { IfOk result (λ l. l.root ≡ a) }
        ensures listing { IfOk result (λ l. IsListing graph.now l.root l.numbers) }
    {
        let mut numbers = Vec::new(alloc);
        let mut places = vec![in alloc; 0; graph.nodes() as usize + 1]?;
        list_products(graph, a, &mut numbers, places.as_mut_slice())?;
        Ok(Listing {
            root: a,
            numbers,
            places,
        })
    }

    /// How many different products there are.
    pub fn count(&self) -> u32
        ensures { result ≡ length self.now.numbers }
    {
        self.numbers.len() as u32
    }

    // The number of the term.
    fn root(&self) -> NodeId
        ensures { result ≡ self.now.root }
    {
        self.root
    }

    // The number of the product at a place, counted from 0.
    fn number_at(&self, k: u32) -> NodeId
        requires { k < length self.now.numbers }
        ensures { result ≡ slice_index_or self.now.numbers k 0 }
    {
        self.numbers[k as usize]
    }

    // The place of a product that is listed, counted from 1.
    fn place_of(&self, graph: &TermGraph, a: NodeId) -> u32
        requires there { a < length graph.now }
        requires listing { IsListing graph.now self.now.root self.now.numbers }
        requires listed { has_term (term_at graph.now a) (distinct_products (term_at graph.now self.now.root))
            ≡ true }
        ensures { result
            ≡ number_in (distinct_products (term_at graph.now self.now.root)) (term_at graph.now a) }
    {
        // It is a graph: so no other number stands for this term.
        let _ = graph.nodes();
        self.places[a.index()]
    }
}

// Gives a term by its name. Its products are to be listed.
fn put_name<K: Sink>(
    sink: &mut K,
    graph: &TermGraph,
    listing: &Listing,
    a: NodeId,
) -> Result<(), Failed>
    requires there { a < length graph.now }
    requires listing { IsListing graph.now listing.now.root listing.now.numbers }
    requires listed { (t : Term) → has_term t (products (term_at graph.now a)) ≡ true
        → has_term t (distinct_products (term_at graph.now listing.now.root)) ≡ true }
    ensures took { Puts (K.taken sink.old) (K.taken sink.new) result
        (name_text (distinct_products (term_at graph.now listing.now.root)) (term_at graph.now a)) }
    ensures cause { HasCause (K.faults sink.old) (K.faults sink.new) result }
    ensures waits { K.waiting sink.new ≤ K.waiting sink.old
        + length (name_text (distinct_products (term_at graph.now listing.now.root)) (term_at graph.now a)) }
{
    match graph.children(a) {
        None => give_all(sink, b"x"),
        Some(_) => put_numbered(sink, b"t", u64::from(listing.place_of(graph, a))),
    }
}

// Gives the front of a product's line: its name and what follows it.
fn put_front<K: Sink>(sink: &mut K, place: u64) -> Result<(), Failed>
    ensures took { Puts (K.taken sink.old) (K.taken sink.new) result
        ((codes "t" ++ decimal place) ++ codes " = (") }
    ensures cause { HasCause (K.faults sink.old) (K.faults sink.new) result }
    ensures waits { K.waiting sink.new ≤ K.waiting sink.old
        + length ((codes "t" ++ decimal place) ++ codes " = (") }
{
    put_numbered(sink, b"t", place)?;
    give_all(sink, b" = (")
}

// Gives the names of the parts of a product that is listed.
fn put_parts<K: Sink>(
    sink: &mut K,
    graph: &TermGraph,
    listing: &Listing,
    parts: (NodeId, NodeId),
) -> Result<(), Failed>
    requires left { parts.0 < length graph.now }
    requires right { parts.1 < length graph.now }
    requires listing { IsListing graph.now listing.now.root listing.now.numbers }
    requires listed { has_term (multiply (term_at graph.now parts.0) (term_at graph.now parts.1))
        (distinct_products (term_at graph.now listing.now.root)) ≡ true }
    ensures took { Puts (K.taken sink.old) (K.taken sink.new) result
        (parts_text (distinct_products (term_at graph.now listing.now.root)) (term_at graph.now parts.0)
        (term_at graph.now parts.1)) }
    ensures cause { HasCause (K.faults sink.old) (K.faults sink.new) result }
    ensures waits { K.waiting sink.new ≤ K.waiting sink.old
        + length (parts_text (distinct_products (term_at graph.now listing.now.root))
        (term_at graph.now parts.0) (term_at graph.now parts.1)) }
{
    put_name(sink, graph, listing, parts.0)?;
    give_all(sink, b"*")?;
    put_name(sink, graph, listing, parts.1)
}

// Gives the line of the product at a place, counted from 0.
fn put_product<K: Sink>(
    sink: &mut K,
    graph: &TermGraph,
    listing: &Listing,
    k: u32,
) -> Result<(), Failed>
    requires within { k < length listing.now.numbers }
    requires listing { IsListing graph.now listing.now.root listing.now.numbers }
    ensures took { Puts (K.taken sink.old) (K.taken sink.new) result
        (line_at (distinct_products (term_at graph.now listing.now.root)) k) }
    ensures cause { HasCause (K.faults sink.old) (K.faults sink.new) result }
    ensures waits { K.waiting sink.new ≤ K.waiting sink.old
        + length (line_at (distinct_products (term_at graph.now listing.now.root)) k) }
{
    let Some(parts) = graph.children(listing.number_at(k)) else {
        unreachable!();
    };
    put_front(sink, u64::from(k) + 1)?;
    put_parts(sink, graph, listing, parts)?;
    give_all(sink, b")\n")
}

// Gives the lines of all products.
fn put_products<K: Sink>(sink: &mut K, graph: &TermGraph, listing: &Listing) -> Result<(), Failed>
    requires { IsListing graph.now listing.now.root listing.now.numbers }
    ensures took { Puts (K.taken sink.old) (K.taken sink.new) result
        (product_lines (distinct_products (term_at graph.now listing.now.root)) 1
        (distinct_products (term_at graph.now listing.now.root))) }
    ensures cause { HasCause (K.faults sink.old) (K.faults sink.new) result }
    ensures waits { K.waiting sink.new ≤ K.waiting sink.old
        + length (product_lines (distinct_products (term_at graph.now listing.now.root)) 1
        (distinct_products (term_at graph.now listing.now.root))) }
{
    for k in 0..listing.count() {
        put_product(sink, graph, listing, k)?;
    }
    Ok(())
}

/// Gives the text of a listing: a line for each product, which names it, and then the name of the term.
///
/// The products of `(x*x)*x` are the lines `t1 = (x*x)` and `t2 = (t1*x)`, and then comes the line `t2`.
/// After `Failed` the sink has taken a front of the text. It takes no memory.
pub fn put_listing<K: Sink>(
    sink: &mut K,
    graph: &TermGraph,
    listing: &Listing,
) -> Result<(), Failed>
    requires { IsListing graph.now listing.now.root listing.now.numbers }
    ensures took { Puts (K.taken sink.old) (K.taken sink.new) result
        (listing_text (term_at graph.now listing.now.root)) }
    ensures cause { HasCause (K.faults sink.old) (K.faults sink.new) result }
    ensures waits { K.waiting sink.new ≤ K.waiting sink.old
        + length (listing_text (term_at graph.now listing.now.root)) }
{
    put_products(sink, graph, listing)?;
    put_name(sink, graph, listing, listing.root())?;
    give_all(sink, b"\n")
}
