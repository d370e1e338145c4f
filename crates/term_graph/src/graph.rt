ghost use Rattle.std.specs.Prelude.{◌≡◌, ◌↔◌, ◌+◌, ◌<◌, ◌≤◌, ◌++◌, ◌∷◌, [], length, true, false, IsTrue, IsOk, IfOk, IfErr, OnOk, OnErr, IsErrOf, MatchOption};
ghost use Rattle.ld_term.specs.Terms.{variable, multiply, height, leaf_count};
ghost use Rattle.ld_term.specs.declared.TheConstants.{MAX_HEIGHT};
ghost use Rattle.term_graph.specs.declared.TheConstants.{MAX_NODES};
ghost use Rattle.term_graph.specs.TermLists.{term_at, product_count, IsGraph, braid_length, capped};
ghost use Rattle.term_graph.specs.Asks.{has_term, ask, answered, too_deep, full, IsRefusal};
ghost use Rattle.term_graph.specs.Nodes.{term_of};

use crate::MAX_NODES;
use crate::error::GraphErr;
use crate::node::{Entry, Node, NodeId};
use indexmap::IndexSet;
use ld_term::MAX_HEIGHT;
use std::alloc::{AllocError, Global};
use std::marker::Model;
use std::rc::Rc;

/// Terms that share their parts, seen as a list: a number stands for the term at its place.
///
/// The list begins with the variable; behind it come the products as they were made, no two the same, each
/// behind its parts.
#[derive(Drop)]
pub struct TermGraph {
    alloc: Global,
    // The numbers of the parts of each product, in order of making.
    pairs: IndexSet<(u32, u32)>,
    entries: Vec<Entry>,
}

impl Model for TermGraph {
    ghost use Rattle.std.specs.Prelude.{List, All};
    ghost use Rattle.ld_term.specs.Terms.{Term};
    ghost use Rattle.term_graph.specs.TermCodes.{coded_term};
    ghost use base.Stored.{coded_list};

    ghost Value = { List Term };

    ghost coded = { coded_list coded_term };

    ghost use Rattle.term_graph.specs.Nodes.{terms_of, IsEntry, IsKept};

    ghost view = { λ s. terms_of s.entries.items };

    ghost invariant = { λ s. IsKept s.pairs.keys (terms_of s.entries.items) × All IsEntry s.entries.items };
}

impl TermGraph {
    /// A graph that has the variable alone.
    pub fn new(alloc: Global) -> Result<TermGraph, AllocError>
        ensures { IfOk result (λ graph. graph ≡ variable ∷ []) }
    {
        let mut entries = Vec::new(alloc);
        entries.push(Entry::variable(alloc)?)?;
        Ok(TermGraph {
            alloc,
            pairs: IndexSet::new(alloc),
            entries,
        })
    }

    /// The number of the variable.
    pub fn var(&self) -> NodeId
        ensures number { result ≡ 0 }
        ensures there { result < length self.now }
        ensures variable { term_at self.now result ≡ variable }
    {
        let _ = &self.pairs;
        NodeId(0)
    }

    /// How many products there are.
    pub fn nodes(&self) -> u32
        ensures count { result ≡ product_count self.now }
        ensures graph { IsGraph self.now }
    {
        self.pairs.len() as u32
    }

    /// Whether two numbers stand for one term, as they do only where they are one number.
    pub fn equal(&self, a: NodeId, b: NodeId) -> bool
        requires left { a < length self.now }
        requires right { b < length self.now }
        ensures terms { IsTrue result ↔ (term_at self.now a ≡ term_at self.now b) }
        ensures numbers { IsTrue result ↔ (a ≡ b) }
    {
        let _ = &self.pairs;
        a == b
    }

    /// The numbers of a product's parts.
    pub fn children(&self, a: NodeId) -> Option<(NodeId, NodeId)>
        requires { a < length self.now }
        ensures { MatchOption result (term_at self.now a ≡ variable)
            (λ parts. (parts.0 < a) × (parts.1 < a)
            × (term_at self.now a ≡ multiply (term_at self.now parts.0) (term_at self.now parts.1))) }
    {
        let pairs = &self.pairs;
        let place = a.index().checked_sub(1)?;
        let (left, right) = *pairs.get_index(place)?;
        Some((NodeId(left), NodeId(right)))
    }

    /// The term, whose parts are shared with each term of the graph that has them.
    pub fn shared(&self, a: NodeId) -> &Rc<Node>
        requires { a < length self.now }
        ensures { term_of result.now.value ≡ term_at self.now a }
    {
        &self.entries[a.index()].tree
    }

    /// The height of a term: 0 for the variable, and one more than the higher part's for a product.
    pub fn height(&self, a: NodeId) -> u32
        requires { a < length self.now }
        ensures height { result ≡ height (term_at self.now a) }
        ensures low { result ≤ MAX_HEIGHT }
    {
        self.entries[a.index()].height
    }

    /// The number of leaves of a term, or the greatest number of 64 bits where it is above that.
    pub fn leaves(&self, a: NodeId) -> u64
        requires { a < length self.now }
        ensures { result ≡ capped (leaf_count (term_at self.now a)) }
    {
        self.entries[a.index()].leaves
    }

    /// The number of letters of a term's braid word, or the greatest number of 64 bits where it is above
    /// that.
    pub fn length(&self, a: NodeId) -> u64
        requires { a < length self.now }
        ensures { result ≡ capped (braid_length (term_at self.now a)) }
    {
        self.entries[a.index()].length
    }

    /// The number of the product of two terms, which is added where it isn't there.
    ///
    /// A product that is there is never refused, and takes no memory. A new one is refused where its height
    /// would be above 1,000, else where 100,000 products are there.
    pub fn product(&mut self, a: NodeId, b: NodeId) -> Result<NodeId, GraphErr>
        requires left { a < length self.old }
        requires right { b < length self.old }
        ensures number { IfOk result
            (λ n. (n < length self.new)
            × (term_at self.new n ≡ multiply (term_at self.old a) (term_at self.old b))) }
        ensures asked { OnOk result
            (ask self.old (multiply (term_at self.old a) (term_at self.old b)) ≡ answered self.new) }
        ensures refused { IfErr result
            (IsRefusal (ask self.old (multiply (term_at self.old a) (term_at self.old b)))) }
        ensures unchanged { OnErr result (self.new ≡ self.old) }

        // What the answer is, but for want of memory, which is answered only to a new product that may be
        // added.
        ensures there { has_term (multiply (term_at self.old a) (term_at self.old b)) self.old ≡ true
            → IsOk result }
        ensures deep { ask self.old (multiply (term_at self.old a) (term_at self.old b)) ≡ too_deep
            → IsErrOf result GraphErr.TooDeep }
        ensures full { ask self.old (multiply (term_at self.old a) (term_at self.old b)) ≡ full
            → IsErrOf result GraphErr.Full }
    {
        if let Some(number) = self.find(a, b) {
            return Ok(number);
        }
        let height = self.height(a).max(self.height(b)) + 1;
        if height as u64 > MAX_HEIGHT {
            return Err(GraphErr::TooDeep);
        }
        if self.nodes() >= MAX_NODES {
            return Err(GraphErr::Full);
        }
        Ok(self.add(a, b)?)
    }

    // The number of the product of two terms, if it is there.
    fn find(&self, a: NodeId, b: NodeId) -> Option<NodeId>
        requires left { a < length self.now }
        requires right { b < length self.now }
        ensures { MatchOption result
            (has_term (multiply (term_at self.now a) (term_at self.now b)) self.now ≡ false)
            (λ n. (n < length self.now)
            × (term_at self.now n ≡ multiply (term_at self.now a) (term_at self.now b))) }
    {
        let place = self.pairs.get_index_of(&(a.0, b.0))?;
        Some(NodeId(place as u32 + 1))
    }

    // Adds a new product that is neither too high nor one too many.
    fn add(&mut self, a: NodeId, b: NodeId) -> Result<NodeId, AllocError>
        requires left { a < length self.old }
        requires right { b < length self.old }
        requires low { height (multiply (term_at self.old a) (term_at self.old b)) ≤ MAX_HEIGHT }
        requires few { product_count self.old < MAX_NODES }
        requires new { has_term (multiply (term_at self.old a) (term_at self.old b)) self.old ≡ false }
        ensures number { IfOk result (λ n. n ≡ length self.old) }
        ensures added { OnOk result
            (self.new ≡ self.old ++ multiply (term_at self.old a) (term_at self.old b) ∷ []) }
        ensures unchanged { OnErr result (self.new ≡ self.old) }
    {
        let number = self.entries.len() as u32;
        let entry = Entry::product(
            self.alloc,
            &self.entries[a.index()],
            &self.entries[b.index()],
        )?;
        self.entries.reserve(1)?;
        let Ok(_) = self.pairs.insert((a.0, b.0)) else {
            return Err(AllocError);
        };
        let Ok(()) = self.entries.push(entry) else {
            unreachable!();
        };
        Ok(NodeId(number))
    }
}
