ghost use Rattle.std.specs.Prelude.{[], ◌∷◌, true, false};
ghost use Rattle.braid_word.specs.Equivalence.{Equivalent};
ghost use Rattle.braid_word.specs.Order.{IsSigmaPositiveAt, IsLess, IsEqual, IsGreater};
ghost use Rattle.free_word.specs.FreeWords.{gen, IsReduced};
ghost use Rattle.artin_laws.specs.Action.{ActAlike, EndsIn, act};

use braid_word::Letter;

/// Equivalent braid words have the same action on reduced words.
///
/// The law is the contract; the body does nothing. After Artin, Theory of braids.
pub fn law_relations(u: &[Letter], v: &[Letter])
    ensures { Equivalent u.now v.now → ActAlike u.now v.now }
{}

/// A sigma_i-positive word sends the generator of index `i` to a reduced word that ends in its inverse.
///
/// The law is the contract; the body does nothing. After Larue, On braid words and irreflexivity.
pub fn law_larue(word: &[Letter], i: u16)
    ensures ends { IsSigmaPositiveAt i word.now → EndsIn (gen i true) (act word.now (gen i false ∷ [])) }
    ensures reduced { IsReduced (act word.now (gen i false ∷ [])) }
{}

/// No two of the verdicts less, equal and greater hold of two braid words.
///
/// The law is the contract; the body does nothing. After Dehornoy, Braid groups and left distributive
/// operations; the way is Larue's.
pub fn law_exclusive(u: &[Letter], v: &[Letter])
    ensures less_equal { IsLess u.now v.now → IsEqual u.now v.now → ⊥ }
    ensures less_greater { IsLess u.now v.now → IsGreater u.now v.now → ⊥ }
    ensures equal_greater { IsEqual u.now v.now → IsGreater u.now v.now → ⊥ }
{}
