// Lists of the numbers 1 to n in some order, kept inline up to 16 of them.

ghost use Rattle.std.specs.Prelude.{◌≡◌, ◌+◌, ◌-◌, ◌<◌, ◌≤◌, ◌↔◌, length, IsTrue, IsOk, IfOk};
ghost use Rattle.std.specs.List.{swap};
ghost use Rattle.perm_braid.specs.Arrangements.{entry, flip, identity, half_turn, IsOrder, places_of};
ghost use Rattle.perm_braid.specs.GreedyPairs.{CanPass};

use smallvec::SmallVec;
use std::alloc::{AllocError, Global};

// The numbers 1 to n.
pub(crate) fn rising(alloc: Global, n: u8) -> Result<SmallVec<u8, 16>, AllocError>
    requires short { n ≤ 64 }
    ensures items { IfOk result (λ v. v.items ≡ identity n) }
    ensures inline { n ≤ 16 → IsOk result }
{
    let mut numbers = SmallVec::with_capacity(alloc, usize::from(n))?;
    for k in 0..n {
        numbers.push_reserved(k + 1);
    }
    Ok(numbers)
}

// The numbers n to 1.
pub(crate) fn falling(alloc: Global, n: u8) -> Result<SmallVec<u8, 16>, AllocError>
    requires short { n ≤ 64 }
    ensures items { IfOk result (λ v. v.items ≡ half_turn n) }
    ensures inline { n ≤ 16 → IsOk result }
{
    let mut numbers = rising(alloc, n)?;
    numbers.as_mut_slice().reverse();
    Ok(numbers)
}

// The number at a place, counted from 1.
pub(crate) fn entry_at(numbers: &[u8], place: u32) -> u8
    requires low { 1 ≤ place }
    requires high { place ≤ length numbers.now }
    ensures { result ≡ entry numbers.now place }
{
    numbers[place as usize - 1]
}

// Whether the places fall after this one, and the entries rise.
pub(crate) fn can_pass(entries: &[u8], places: &[u8], i: u32) -> bool
    requires low { 1 ≤ i }
    requires entries { i < length entries.now }
    requires places { i < length places.now }
    requires short { length entries.now ≤ 64 }
    ensures { IsTrue result ↔ CanPass entries.now places.now i (i + 1) }
{
    entry_at(places, i + 1) < entry_at(places, i)
        && entry_at(entries, i) <= entry_at(entries, i + 1)
}

// Exchanges the numbers at two places, counted from 1.
pub(crate) fn exchange(numbers: &mut SmallVec<u8, 16>, first: u8, second: u8)
    requires first { (1 ≤ first) × (first ≤ length numbers.old.items) }
    requires second { (1 ≤ second) × (second ≤ length numbers.old.items) }
    ensures { numbers.new.items ≡ swap numbers.old.items (first - 1) (second - 1) }
{
    numbers
        .as_mut_slice()
        .swap(usize::from(first) - 1, usize::from(second) - 1);
}

// Whether these are the numbers 1 to n.
pub(crate) fn is_rising(numbers: &[u8]) -> bool
    ensures { IsTrue result ↔ (numbers.now ≡ identity (length numbers.now)) }
{
    for k in 0..numbers.len() {
        if usize::from(numbers[k]) != k + 1 {
            return false;
        }
    }
    true
}

// Whether these are the numbers n to 1.
pub(crate) fn is_falling(numbers: &[u8]) -> bool
    ensures { IsTrue result ↔ (numbers.now ≡ half_turn (length numbers.now)) }
{
    for k in 0..numbers.len() {
        if usize::from(numbers[k]) != numbers.len() - k {
            return false;
        }
    }
    true
}

// Turns an order by half a turn.
pub(crate) fn turn(numbers: &mut SmallVec<u8, 16>)
    requires short { length numbers.old.items ≤ 64 }
    requires order { IsOrder (length numbers.old.items) numbers.old.items }
    ensures { numbers.new.items ≡ flip numbers.old.items }
{
    flip(numbers.as_mut_slice());
}

// The same in a slice.
fn flip(numbers: &mut [u8])
    requires short { length numbers.old ≤ 64 }
    requires order { IsOrder (length numbers.old) numbers.old }
    ensures { numbers.new ≡ flip numbers.old }
{
    numbers.reverse();
    let above = numbers.len() as u8 + 1;
    for k in 0..numbers.len() {
        numbers[k] = above - numbers[k];
    }
}

// Writes the places of the numbers.
fn write_places(places: &mut [u8], numbers: &[u8])
    requires equal { length places.old ≡ length numbers.now }
    requires short { length numbers.now ≤ 64 }
    requires order { IsOrder (length numbers.now) numbers.now }
    ensures { places.new ≡ places_of numbers.now }
{
    for k in 0..numbers.len() {
        places[usize::from(numbers[k]) - 1] = k as u8 + 1;
    }
}

// The same in vectors.
pub(crate) fn place(places: &mut SmallVec<u8, 16>, numbers: &SmallVec<u8, 16>)
    requires equal { length places.old.items ≡ length numbers.now.items }
    requires short { length numbers.now.items ≤ 64 }
    requires order { IsOrder (length numbers.now.items) numbers.now.items }
    ensures { places.new.items ≡ places_of numbers.now.items }
{
    write_places(places.as_mut_slice(), numbers.as_slice());
}
