// A row of places with the right to give its room back.
ghost use Rattle.std.specs.Prelude.{◌≡◌};
ghost use Rattle.core.specs.Mem.Slots.{slots_ptr, slots_len};

use crate::block::Deed;
use core::slots::Slots;
use std::alloc::Global;

// The places, and the deed to them.
pub(crate) struct Places<T> {
    pub(crate) slots: Slots<T>,
    pub(crate) deed: Deed<T, Global>,
    ghost held: { (deed.ptr ≡ slots_ptr slots) × (deed.len ≡ slots_len slots) },
}
