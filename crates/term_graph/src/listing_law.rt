ghost use Rattle.std.specs.Prelude.{◌≤◌, ◌∷◌, length, None};
ghost use Rattle.wb_base.specs.Lines.{lines_of};
ghost use Rattle.ld_term.specs.Terms.{Term, variable, height};
ghost use Rattle.ld_term.specs.declared.TheConstants.{MAX_HEIGHT};
ghost use Rattle.term_graph.specs.declared.TheConstants.{MAX_NODES};
ghost use Rattle.term_graph.specs.Listings.{distinct_products, listing_text};
ghost use Rattle.term_graph.specs.TermFiles.{IsTermFile};

/// The listing of a term is a term file of this one term: the graph that is read from it has the different
/// products of the term in the order of the listing, and the last of them is the term.
///
/// The law is the contract; the body does nothing.
pub fn law_listing()
    ensures { (t : Term) → height t ≤ MAX_HEIGHT → length (distinct_products t) ≤ MAX_NODES
        → IsTermFile 1 (lines_of (listing_text t)) (variable ∷ distinct_products t)
        (length (distinct_products t)) None }
{}
