ghost use Rattle.std.specs.Prelude.{◌≡◌, ℕ, ◌<◌, ◌++◌, ◌∷◌, List, length, true, All};
ghost use Rattle.ld_term.specs.Terms.{Term};
ghost use Rattle.term_graph.specs.TermLists.{term_at};
ghost use Rattle.term_graph.specs.Asks.{has_term, answered, ask_all};
ghost use Rattle.term_graph.specs.Listings.{IsListing};
ghost use Rattle.term_graph.specs.Requests.{IsFront};

/// Where requests are granted, each number stands for its term as before, and each term that was asked for is
/// there afterwards. A request for a term that was asked for before may be left out.
///
/// The law is the contract; the body does nothing.
pub fn law_requests()
    ensures kept { (old : List Term) → (new : List Term) → (requests : List Term)
        → ask_all (answered old) requests ≡ answered new
        → (n : ℕ) → n < length old → term_at new n ≡ term_at old n }
    ensures there { (old : List Term) → (new : List Term) → (requests : List Term)
        → ask_all (answered old) requests ≡ answered new
        → All (λ t. has_term t new ≡ true) requests }
    ensures skipped { (old : List Term) → (before : List Term) → (t : Term) → (after : List Term)
        → has_term t before ≡ true
        → ask_all (answered old) (before ++ t ∷ after) ≡ ask_all (answered old) (before ++ after) }
{}

/// Where a graph grows, each number stands for its term as before, and a listing is one of the same term.
///
/// The law is the contract; the body does nothing.
pub fn law_growth()
    ensures numbers { (old : List Term) → (new : List Term) → IsFront old new
        → (n : ℕ) → n < length old → (n < length new) × (term_at new n ≡ term_at old n) }
    ensures listing { (old : List Term) → (new : List Term) → IsFront old new
        → (root : ℕ) → (numbers : List ℕ) → IsListing old root numbers → IsListing new root numbers }
{}
