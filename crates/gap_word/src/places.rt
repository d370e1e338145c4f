// The places of a buffer, of which there are none before its first push.
ghost use Rattle.std.specs.Prelude.{◌≡◌, ℕ, ◌+◌, ◌<◌, ◌≤◌, min, max, true, false, length, slice_index_or, slice_set, IsTrue, IsSome, IsNone};
ghost use Rattle.std.specs.Global.{Global};
ghost use Rattle.core.specs.Mem.Slots.Ownership.{Filled, SameOutside};
ghost use Rattle.gap_word.specs.Parts.{items_of, filled_of, HeldBy, IsRoom};

use crate::block::Block;
use crate::held::Places;
use std::alloc::Global;

// The item at a full place.
pub(crate) fn get<T: Copy>(row: &Option<Places<T>>, k: usize) -> T
    requires within { k < length (items_of row.now) }
    requires full { slice_index_or (filled_of row.now) k false ≡ true }
    ensures { result ≡ slice_index_or (items_of row.now) k result }
{
    match row {
        Some(places) => *places.slots.get(k),
        None => unreachable!(),
    }
}

// Puts an item into a place.
pub(crate) fn put<T: Copy>(row: &mut Option<Places<T>>, k: usize, item: T)
    requires { k < length (items_of row.old) }
    ensures items { items_of row.new ≡ slice_set (items_of row.old) k item }
    ensures filled { filled_of row.new ≡ slice_set (filled_of row.old) k true }
    ensures held { (a : Global) → HeldBy a row.old → HeldBy a row.new }
    ensures none { IsNone row.old → IsNone row.new }
{
    match row {
        Some(places) => places.slots.put(k, item),
        None => unreachable!(),
    }
}

// Moves so many items, which may overlap the places that they go to.
pub(crate) fn shift<T: Copy>(row: &mut Option<Places<T>>, from: usize, to: usize, count: usize)
    requires fits { (from + count ≤ length (items_of row.old)) × (to + count ≤ length (items_of row.old)) }
    requires full { Filled (filled_of row.old) from (from + count) }
    ensures moved { (k : ℕ) (d : T) → k < count
        → slice_index_or (items_of row.new) (to + k) d ≡ slice_index_or (items_of row.old) (from + k) d }
    ensures items { (d : T) → SameOutside d (items_of row.old) (items_of row.new) to (to + count) }
    ensures filled { Filled (filled_of row.new) to (to + count) }
    ensures marks { SameOutside false (filled_of row.old) (filled_of row.new)
        (min from to) (max from to + count) }
    ensures places { length (items_of row.new) ≡ length (items_of row.old) }
    ensures places_marked { length (filled_of row.new) ≡ length (filled_of row.old) }
    ensures held { (a : Global) → HeldBy a row.old → HeldBy a row.new }
    ensures none { IsNone row.old → IsNone row.new }
{
    match row {
        Some(places) => places.slots.move_within(from, to, count),
        None => {}
    }
}

// Makes places of the room.
pub(crate) fn open<T: Copy>(
    room: &mut Option<Block<T, Global>>,
    row: &mut Option<Places<T>>,
    len: usize,
)
    requires some { IsSome room.old × T }
    requires room { (a : Global) × IsRoom a len room.old }
    requires none { IsNone row.old }
    ensures room { IsNone room.new }
    ensures row { IsSome row.new }
    ensures places { length (items_of row.new) ≡ len }
    ensures marks { length (filled_of row.new) ≡ len }
    ensures held { (a : Global) → IsRoom a len room.old → HeldBy a row.new }
{
    let Some(block) = room.take() else {
        unreachable!();
    };
    let (slots, deed) = block.open(len);
    match row.replace(Places { slots, deed }) {
        None => {}
        Some(_places) => unreachable!(),
    }
}

// Gives the room back.
pub(crate) fn free_room<T: Copy>(room: Option<Block<T, Global>>, alloc: &Global, len: usize)
    requires { IsRoom alloc.now len room }
{
    match room {
        Some(block) => block.free(alloc, len),
        None => {}
    }
}

// Gives back the room of the places.
pub(crate) fn free_places<T: Copy>(row: Option<Places<T>>, alloc: &Global)
    requires { HeldBy alloc.now row }
{
    match row {
        Some(Places { slots, deed }) => {
            let len = slots.len();
            deed.close(slots).free(alloc, len);
        }
        None => {}
    }
}
