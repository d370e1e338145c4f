// A block of memory from an allocator: as room that holds nothing, or as places of values.
ghost use Rattle.std.specs.Prelude.{◌≡◌, ℕ, IfOk};
ghost use Rattle.core.specs.Mem.Slots.{slots_ptr, slots_len};
ghost use Rattle.gap_word.specs.Block.{Fits, block_owns, deed_owns};

use core::slots::Slots;
use std::alloc::{AllocError, Allocator};
use std::marker::{Model, PhantomData};
use std::mem::{align_of, size_of};

// Room for `len` values at `ptr`, and the right to give it back to `heap`.
pub(crate) struct Block<T, A: Allocator> {
    ptr: *mut T,
    by: PhantomData<A>,
    ghost len: { ℕ },
    ghost heap: { A },
}

impl<T, A: Allocator> Model for Block<T, A> {
    ghost also_owns = { λ b. block_owns (A.dealloc_token b.heap) T.row b.ptr b.len };
}

// That right alone, while the room is lent out as places of values.
pub(crate) struct Deed<T, A: Allocator> {
    ptr: *mut T,
    by: PhantomData<A>,
    ghost len: { ℕ },
    ghost heap: { A },
}

impl<T, A: Allocator> Model for Deed<T, A> {
    ghost also_owns = { λ d. deed_owns (A.dealloc_token d.heap) T.row d.ptr d.len };
}

impl<T, A: Allocator> Block<T, A> {
    // Takes room for so many values. Nothing is written there.
    pub(crate) fn new(alloc: &A, len: usize) -> Result<Block<T, A>, AllocError>
        requires { Fits T.row len }
        ensures { IfOk result (λ b. (b.len ≡ len) × (b.heap ≡ alloc.now)) }
    {
        match alloc.allocate(len * size_of::<T>(), align_of::<T>()) {
            Ok(bytes) => Ok(Block {
                ptr: bytes as *mut T,
                by: PhantomData,
            }),
            Err(refused) => Err(refused),
        }
    }

    // Gives the room back.
    pub(crate) fn free(self, alloc: &A, len: usize)
        requires { (self.len ≡ len) × (self.heap ≡ alloc.now) }
    {
        let Block { ptr, by: _ } = self;
        unsafe {
            alloc.deallocate(ptr as *mut u8, len * size_of::<T>(), align_of::<T>());
        }
    }

    // Makes empty places of the room. The logic keeps a value for each of them, so there has to be one.
    pub(crate) fn open(self, len: usize) -> (Slots<T>, Deed<T, A>)
        requires { (self.len ≡ len) × T }
        ensures { (slots_len result.0 ≡ len) × (result.1.len ≡ len)
            × (result.1.ptr ≡ slots_ptr result.0) × (result.1.heap ≡ self.heap) }
    {
        let Block { ptr, by } = self;
        let slots = unsafe { Slots::from_raw_parts(ptr, len) };
        (slots, Deed { ptr, by })
    }
}

impl<T, A: Allocator> Deed<T, A> {
    // Makes room of the places again, whatever they hold.
    pub(crate) fn close(self, slots: Slots<T>) -> Block<T, A>
        requires { (self.ptr ≡ slots_ptr slots) × (self.len ≡ slots_len slots) }
        ensures { (result.len ≡ slots_len slots) × (result.heap ≡ self.heap) }
    {
        let Deed { ptr: _, by } = self;
        let (ptr, _len) = unsafe { slots.into_raw_parts() };
        Block { ptr, by }
    }
}
