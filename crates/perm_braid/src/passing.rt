// The entries of the first of a pair and the places of the second, made greedy together.

ghost use Rattle.std.specs.Prelude.{◌≡◌, ◌+◌, ◌<◌, ◌≤◌, false, length, IsTrue};
ghost use Rattle.perm_braid.specs.GreedyPairs.{CanPass, IsStill, Passes};

use crate::entries::can_pass;
use smallvec::SmallVec;

// Lets what stands behind the place `from` sink to the front, as long as it can pass what stands before it,
// and answers whether it passed anything.
fn sink(entries: &mut [u8], places: &mut [u8], from: u32) -> bool
    requires low { 1 ≤ from }
    requires high { from < length entries.old }
    requires equal { length places.old ≡ length entries.old }
    requires short { length entries.old ≤ 64 }
    requires still { IsStill entries.old places.old from }
    ensures passes { Passes entries.old places.old entries.new places.new }
    ensures still { IsStill entries.new places.new (from + 1) }
    ensures some { IsTrue result → CanPass entries.old places.old from (from + 1) }
    ensures none { result ≡ false → (entries.new ≡ entries.old) × (places.new ≡ places.old) }
{
    let mut at = from;
    'sinking: while at > 0 {
        if !can_pass(entries, places, at) {
            return at < from;
        }
        entries.swap(at as usize - 1, at as usize);
        places.swap(at as usize - 1, at as usize);
        at -= 1;
    }
    true
}

// Lets each of the pair sink, the first first, and answers whether any passed another.
fn settle_slices(entries: &mut [u8], places: &mut [u8]) -> bool
    requires equal { length places.old ≡ length entries.old }
    requires short { length entries.old ≤ 64 }
    ensures passes { Passes entries.old places.old entries.new places.new }
    ensures still { IsStill entries.new places.new (length entries.old) }
    ensures some { IsTrue result → IsStill entries.old places.old (length entries.old) → ⊥ }
    ensures none { result ≡ false → (entries.new ≡ entries.old) × (places.new ≡ places.old) }
{
    let mut passed = false;
    for from in 1..entries.len() as u32 {
        let sank = sink(entries, places, from);
        passed |= sank;
    }
    passed
}

// The same in vectors.
pub(crate) fn settle(entries: &mut SmallVec<u8, 16>, places: &mut SmallVec<u8, 16>) -> bool
    requires equal { length places.old.items ≡ length entries.old.items }
    requires short { length entries.old.items ≤ 64 }
    ensures passes { Passes entries.old.items places.old.items entries.new.items places.new.items }
    ensures still { IsStill entries.new.items places.new.items (length entries.old.items) }
    ensures some { IsTrue result → IsStill entries.old.items places.old.items (length entries.old.items) → ⊥ }
    ensures none { result ≡ false
        → (entries.new.items ≡ entries.old.items) × (places.new.items ≡ places.old.items) }
{
    settle_slices(entries.as_mut_slice(), places.as_mut_slice())
}
