ghost use Rattle.braid_word.specs.Words.{IsWord};
ghost use Rattle.braid_word.specs.Equivalence.{Equivalent};
ghost use Rattle.braid_word.specs.Order.{IsLess};
ghost use Rattle.shift_braid.specs.Bracket.{bracket};

use braid_word::Letter;

/// The bracket is left-distributive up to equivalence.
///
/// The law is the contract; the body does nothing. After Dehornoy, Braid groups and left distributive
/// operations.
pub fn law_distributive(a: &[Letter], b: &[Letter], c: &[Letter])
    ensures { IsWord a.now → IsWord b.now → IsWord c.now
        → Equivalent (bracket a.now (bracket b.now c.now))
        (bracket (bracket a.now b.now) (bracket a.now c.now)) }
{}

/// A braid word is less than its bracket with any other, in the order on braids.
///
/// The law is the contract; the body does nothing. After Dehornoy, Braid groups and left distributive
/// operations.
pub fn law_less(a: &[Letter], b: &[Letter])
    ensures { IsWord a.now → IsWord b.now → IsLess a.now (bracket a.now b.now) }
{}
