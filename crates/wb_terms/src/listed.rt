// The listing of a term that a command has made.
ghost use Rattle.std.specs.Prelude.{◌≡◌, ◌<◌, length, IfOk};
ghost use Rattle.term_graph.specs.TermLists.{term_at};
ghost use Rattle.wb_terms.specs.Listed.{listing_answer};

use std::alloc::{AllocError, Global};
use std::marker::Model;
use term_graph::{Listing, NodeId, TermGraph, put_listing};
use wb_base::{Failed, Sink, Status};
use wb_command::Written;

/// A term of a graph, with its listing.
#[derive(Drop)]
pub struct ListedTerm {
    graph: TermGraph,
    listing: Listing,
}

impl Model for ListedTerm {
    ghost use Rattle.ld_term.specs.Terms.{Term};
    ghost use Rattle.term_graph.specs.TermCodes.{coded_term};

    ghost Value = { Term };

    ghost coded = { coded_term };

    ghost use Rattle.term_graph.specs.TermLists.{term_at};
    ghost use Rattle.term_graph.specs.Listings.{IsListing};

    ghost view = { λ s. term_at s.graph s.listing.root };

    ghost invariant = { λ s. IsListing s.graph s.listing.root s.listing.numbers };
}

impl ListedTerm {
    // Lists a term of a graph.
    pub(crate) fn make(
        alloc: Global,
        graph: TermGraph,
        node: NodeId,
    ) -> Result<ListedTerm, AllocError>
        requires { node < length graph }
        ensures { IfOk result (λ term. term ≡ term_at graph node) }
    {
        let listing = Listing::make(alloc, &graph, node)?;
        Ok(ListedTerm { graph, listing })
    }
}

impl Written for ListedTerm {
    ghost answer = { listing_answer };

    fn status(&self) -> Status {
        Status::Done
    }

    fn put<K: Sink>(&self, sink: &mut K) -> Result<(), Failed> {
        put_listing(sink, &self.graph, &self.listing)
    }
}
