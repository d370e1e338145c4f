ghost use Rattle.std.specs.Prelude.{◌≡◌, ◌+◌, ◌<◌, length};
ghost use Rattle.braid_word.specs.Words.{SomeLetter, IsOn};
ghost use Rattle.braid_word.specs.Equivalence.{Equivalent};
ghost use Rattle.braid_word.specs.Order.{IsLess};
ghost use Rattle.ld_term.specs.Terms.{Term, multiply, height, IsEquivalent};
ghost use Rattle.term_graph.specs.TermLists.{braid_length};
ghost use Rattle.term_eval.specs.Braids.{braid};

/// The length of a term's braid word, and its greatest index, which is the term's height.
///
/// The indices go from 1 to the height, and the height is one of them where it isn't 0. The law is the
/// contract; the body does nothing.
pub fn law_braid_word()
    ensures length { (t : Term) → length (braid t) ≡ braid_length t }
    ensures within { (t : Term) → IsOn (height t + 1) (braid t) }
    ensures greatest { (t : Term) → 0 < height t → SomeLetter (λ x. x.index ≡ height t) (braid t) }
{}

/// Equivalent terms have equivalent braids.
///
/// The law is the contract; the body does nothing. After Dehornoy, Braid groups and left distributive
/// operations.
pub fn law_equivalent_braids()
    ensures { (t : Term) → (u : Term) → IsEquivalent t u → Equivalent (braid t) (braid u) }
{}

/// A term's braid is less than that of its product with any term, in the order on braids.
///
/// The law is the contract; the body does nothing. After Dehornoy, Braid groups and left distributive
/// operations.
pub fn law_less_braid()
    ensures { (t : Term) → (u : Term) → IsLess (braid t) (braid (multiply t u)) }
{}
