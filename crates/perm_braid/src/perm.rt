ghost use Rattle.std.specs.Prelude.{◌≡◌, ◌+◌, ◌<◌, ◌≤◌, ◌↔◌, length, IsTrue, IsOk, IfOk};
ghost use Rattle.perm_braid.specs.Arrangements.{entry, swapped, values_swapped, flip, identity, half_turn, IsRightDescent, IsLeftDescent, IsArrangement};
ghost use Rattle.perm_braid.specs.GreedyPairs.{IsGreedy, Moves, KeepsProduct};

use crate::entries::{entry_at, exchange, falling, is_falling, is_rising, place, rising, turn};
use crate::passing::settle;
use smallvec::SmallVec;
use std::alloc::{AllocError, Global};
use std::marker::Model;

/// A simple braid on 2 to 64 strands, by its arrangement: the numbers of the strands in the order in which
/// they end.
///
/// Places and strands count from 1. Up to 16 strands lie in the value itself. These are the permutation
/// braids of Epstein and others, Word Processing in Groups, chapter 9; the side is this project's.
#[derive(Debug, Drop)]
pub struct Perm {
    entries: SmallVec<u8, 16>,
    // The place of each entry, so that descents on both sides are found at once.
    places: SmallVec<u8, 16>,
}

impl Model for Perm {
    ghost use Rattle.std.specs.Prelude.{◌≡◌, ℕ, List};
    ghost use Rattle.perm_braid.specs.Arrangements.{places_of, IsArrangement};

    ghost Value = { List ℕ };

    ghost view = { λ p. p.entries.items };

    ghost invariant = { λ p. IsArrangement p.entries.items × (p.places.items ≡ places_of p.entries.items) };
}

impl Perm {
    /// The identity: no strand crosses another. With up to 16 strands it takes no memory.
    pub fn identity(alloc: Global, n: u32) -> Result<Perm, AllocError>
        requires low { 2 ≤ n }
        requires high { n ≤ 64 }
        ensures value { IfOk result (λ p. p ≡ identity n) }
        ensures inline { n ≤ 16 → IsOk result }
    {
        let entries = rising(alloc, n as u8)?;
        let places = rising(alloc, n as u8)?;
        Ok(Perm { entries, places })
    }

    /// The half turn: each strand crosses each other one once. With up to 16 strands it takes no memory.
    pub fn delta(alloc: Global, n: u32) -> Result<Perm, AllocError>
        requires low { 2 ≤ n }
        requires high { n ≤ 64 }
        ensures value { IfOk result (λ p. p ≡ half_turn n) }
        ensures inline { n ≤ 16 → IsOk result }
    {
        let entries = falling(alloc, n as u8)?;
        let places = falling(alloc, n as u8)?;
        Ok(Perm { entries, places })
    }

    /// The same braid once more. With up to 16 strands it takes no memory.
    pub fn copy(&self, alloc: Global) -> Result<Perm, AllocError>
        ensures value { IfOk result (λ p. p ≡ self.now) }
        ensures inline { length self.now ≤ 16 → IsOk result }
    {
        let entries = SmallVec::from_slice(alloc, self.entries.as_slice())?;
        let places = SmallVec::from_slice(alloc, self.places.as_slice())?;
        Ok(Perm { entries, places })
    }

    /// The number of strands.
    pub fn strands(&self) -> u32
        ensures value { result ≡ length self.now }
        ensures low { 2 ≤ result }
        ensures high { result ≤ 64 }
        ensures arrangement { IsArrangement self.now }
    {
        self.entries.len() as u32
    }

    /// The entry at a place, counted from 1.
    pub fn at(&self, place: u32) -> u32
        requires low { 1 ≤ place }
        requires high { place ≤ length self.now }
        ensures value { result ≡ entry self.now place }
        ensures low { 1 ≤ result }
        ensures high { result ≤ length self.now }
    {
        u32::from(entry_at(self.entries.as_slice(), place))
    }

    /// Whether no strand crosses another.
    pub fn is_identity(&self) -> bool
        ensures { IsTrue result ↔ (self.now ≡ identity (length self.now)) }
    {
        is_rising(self.entries.as_slice())
    }

    /// Whether each strand crosses each other one.
    pub fn is_delta(&self) -> bool
        ensures { IsTrue result ↔ (self.now ≡ half_turn (length self.now)) }
    {
        is_falling(self.entries.as_slice())
    }

    /// Whether both are one braid, on one number of strands.
    pub fn same(&self, other: &Perm) -> bool
        ensures { IsTrue result ↔ (self.now ≡ other.now) }
    {
        self.entries.as_slice() == other.entries.as_slice()
    }

    /// Whether the entry at the place is greater than the next.
    pub fn is_right_descent(&self, i: u32) -> bool
        requires low { 1 ≤ i }
        requires high { i < length self.now }
        ensures { IsTrue result ↔ IsRightDescent self.now i }
    {
        let entries = self.entries.as_slice();
        entry_at(entries, i + 1) < entry_at(entries, i)
    }

    /// Whether the next value stands before the value.
    pub fn is_left_descent(&self, i: u32) -> bool
        requires low { 1 ≤ i }
        requires high { i < length self.now }
        ensures { IsTrue result ↔ IsLeftDescent self.now i }
    {
        let places = self.places.as_slice();
        entry_at(places, i + 1) < entry_at(places, i)
    }

    /// Multiplies by the generator of index `i` on the right: exchanges the entries at the places `i` and
    /// `i + 1`, where they rise.
    pub fn after(&mut self, i: u32)
        requires low { 1 ≤ i }
        requires high { i < length self.old }
        requires rises { IsRightDescent self.old i → ⊥ }
        ensures { self.new ≡ swapped i self.old }
    {
        let entries = self.entries.as_slice();
        let (first, second) = (entry_at(entries, i), entry_at(entries, i + 1));
        exchange(&mut self.entries, i as u8, i as u8 + 1);
        exchange(&mut self.places, first, second);
    }

    /// Divides by the generator of index `i` on the left: exchanges the values `i` and `i + 1`, where the
    /// second stands first.
    pub fn before(&mut self, i: u32)
        requires low { 1 ≤ i }
        requires high { i < length self.old }
        requires descent { IsLeftDescent self.old i }
        ensures { self.new ≡ values_swapped i self.old }
    {
        let places = self.places.as_slice();
        let (first, second) = (entry_at(places, i), entry_at(places, i + 1));
        exchange(&mut self.entries, first, second);
        exchange(&mut self.places, i as u8, i as u8 + 1);
    }

    /// Conjugates by the half turn: the entry at place k is n + 1 less the old one at place n + 1 - k.
    pub fn flip(&mut self)
        ensures { self.new ≡ flip self.old }
    {
        turn(&mut self.entries);
        turn(&mut self.places);
    }
}

/// Moves left descents of `q` that are no right descents of `p` from `q` to `p`, until none is left, and
/// answers whether it moved one.
///
/// The order of the moves is not said. It takes no memory. After Epstein and others, Word Processing in
/// Groups, chapter 9.
pub fn greedy_pair(p: &mut Perm, q: &mut Perm) -> bool
    requires equal { length p.old ≡ length q.old }
    ensures moves { Moves (length p.old) p.old q.old p.new q.new }
    ensures product { KeepsProduct (length p.old) p.old q.old p.new q.new }
    ensures greedy { IsGreedy (length p.old) p.new q.new }
    ensures moved { IsTrue result ↔ (IsGreedy (length p.old) p.old q.old → ⊥) }
{
    // A move exchanges neighbours among the entries of `p` and among the places of `q`.
    let moved = settle(&mut p.entries, &mut q.places);
    place(&mut p.places, &p.entries);
    place(&mut q.entries, &q.places);
    moved
}
