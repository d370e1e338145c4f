// All items lie in one row of places: the low ones of left, a hole, the high ones, room between, and right.
// The hole is where the last item was removed, so that removing the next one near it costs their distance.
ghost use Rattle.std.specs.Prelude.{◌≡◌, ◌+◌, ◌-◌, ◌<◌, ◌≤◌, false, [], ◌∷◌, ◌++◌, length, take, drop, slice_get, IfOk, IsTrue, MatchOption};
ghost use Rattle.std.specs.List.{remove};
ghost use Rattle.gap_word.specs.Gap.{gap, room, PopsLeft, PopsRight, StepsLeft, StepsRight};
ghost use Rattle.gap_word.specs.declared.TheConstants.{MAX_ROOM};

use crate::block::Block;
use crate::held::Places;
use crate::places::{free_places, free_room, get, open, put, shift};
use std::alloc::{AllocError, Global};
use std::fmt;
use std::marker::Model;
use std_alloc::room::may_hold;

/// A buffer with a cursor. Its items are seen as two lists, left and right of the cursor.
///
/// All memory is taken when it is made: no other call takes any.
pub struct GapWord<T: Copy> {
    room: Option<Block<T, Global>>, // before the first push
    row: Option<Places<T>>, // from then on
    // Left is below low and from high to end, right is from start on.
    low: usize,
    high: usize,
    end: usize,
    start: usize,
    cells: usize, // how many places there are
    rest: usize, // how many there will be, before the first push
    alloc: Global,
}

impl<T: Copy> Model for GapWord<T> {
    ghost use Rattle.gap_word.specs.Gap.{Gap, gap_code};

    ghost Value = { Gap T };

    ghost coded = { gap_code T.code };

    ghost use Rattle.gap_word.specs.Parts.{seen, items_of, IsBuffer};

    ghost view = { λ g. seen (items_of g.row) g.low g.high g.end g.start g.rest };

    ghost invariant = { λ g. IsBuffer g.alloc g.room g.row g.low g.high g.end g.start g.cells g.rest };
}

impl<T: Copy> fmt::Debug for GapWord<T> {
    fn fmt<W: fmt::Write>(&self, f: &mut fmt::Formatter<W>) -> fmt::Result {
        f.debug_struct("GapWord")
            .field("left_len", &self.left_len())
            .field("right_len", &self.right_len())
            .field("spare", &self.spare())
            .finish()
    }
}

impl<T: Copy> Drop for GapWord<T> {
    fn drop(self) {
        let GapWord {
            room,
            row,
            low: _,
            high: _,
            end: _,
            start: _,
            cells: _,
            rest,
            alloc,
        } = self;
        free_places(row, &alloc);
        free_room(room, &alloc, rest);
    }
}

impl<T: Copy> GapWord<T> {
    /// A buffer without an item, with room for so many.
    pub fn with_capacity(alloc: Global, n: usize) -> Result<GapWord<T>, AllocError>
        requires { n ≤ MAX_ROOM }
        ensures { IfOk result (λ g. g ≡ gap [] [] n) }
    {
        if !may_hold::<T>(n) {
            return Err(AllocError);
        }
        let room = Block::new(&alloc, n)?;
        Ok(GapWord {
            room: Some(room),
            row: None,
            low: 0,
            high: 0,
            end: 0,
            start: 0,
            cells: 0,
            rest: n,
            alloc,
        })
    }

    /// Puts an item at the end of left.
    pub fn push_left(&mut self, item: T)
        requires { 0 < self.old.spare }
        ensures { self.new ≡ gap (self.old.left ++ item ∷ []) self.old.right (self.old.spare - 1) }
    {
        if self.end < self.start {
            put(&mut self.row, self.end, item);
            self.end += 1;
        } else if 0 < self.rest {
            open(&mut self.room, &mut self.row, self.rest);
            self.cells = self.rest;
            self.start = self.rest;
            self.rest = 0;
            put(&mut self.row, self.end, item);
            self.end += 1;
        } else {
            let count = self.end - self.high;
            shift(&mut self.row, self.high, self.low, count);
            self.high = self.low;
            self.end = self.low + count;
            put(&mut self.row, self.end, item);
            self.end += 1;
        }
    }

    /// Puts an item in front of right.
    pub fn push_right(&mut self, item: T)
        requires { 0 < self.old.spare }
        ensures { self.new ≡ gap self.old.left (item ∷ self.old.right) (self.old.spare - 1) }
    {
        if self.end < self.start {
            self.start -= 1;
            put(&mut self.row, self.start, item);
        } else if 0 < self.rest {
            open(&mut self.room, &mut self.row, self.rest);
            self.cells = self.rest;
            self.start = self.rest - 1;
            self.rest = 0;
            put(&mut self.row, self.start, item);
        } else {
            let count = self.end - self.high;
            shift(&mut self.row, self.high, self.low, count);
            self.high = self.low;
            self.end = self.low + count;
            self.start -= 1;
            put(&mut self.row, self.start, item);
        }
    }

    /// Takes the last item of left out. `None` exactly where left is empty.
    pub fn pop_left(&mut self) -> Option<T>
        ensures { MatchOption result ((self.old.left ≡ []) × (self.new ≡ self.old))
            (λ x. PopsLeft self.old x self.new) }
    {
        if self.high < self.end {
            self.end -= 1;
            Some(get(&self.row, self.end))
        } else if 0 < self.low {
            self.low -= 1;
            self.high = self.low;
            self.end = self.low;
            Some(get(&self.row, self.low))
        } else {
            None
        }
    }

    /// Takes the first item of right out. `None` exactly where right is empty.
    pub fn pop_right(&mut self) -> Option<T>
        ensures item { MatchOption result ((self.old.right ≡ []) × (self.new ≡ self.old))
            (λ x. PopsRight self.old x self.new) }
    {
        if self.start < self.cells {
            let item = get(&self.row, self.start);
            self.start += 1;
            Some(item)
        } else {
            None
        }
    }

    /// Moves the last item of left to the front of right. False exactly where left is empty.
    pub fn step_left(&mut self) -> bool
        ensures moves { IsTrue result → StepsLeft self.old self.new }
        ensures stays { result ≡ false → (self.old.left ≡ []) × (self.new ≡ self.old) }
    {
        if self.high < self.end {
            self.end -= 1;
            self.start -= 1;
            let item = get(&self.row, self.end);
            put(&mut self.row, self.start, item);
            true
        } else if 0 < self.low {
            self.low -= 1;
            self.high = self.low;
            self.end = self.low;
            self.start -= 1;
            let item = get(&self.row, self.low);
            put(&mut self.row, self.start, item);
            true
        } else {
            false
        }
    }

    /// Moves the first item of right to the end of left. False exactly where right is empty.
    pub fn step_right(&mut self) -> bool
        ensures moves { IsTrue result → StepsRight self.old self.new }
        ensures stays { result ≡ false → (self.old.right ≡ []) × (self.new ≡ self.old) }
    {
        if self.start < self.cells {
            let item = get(&self.row, self.start);
            put(&mut self.row, self.end, item);
            self.end += 1;
            self.start += 1;
            true
        } else {
            false
        }
    }

    /// The item of left at this place, counted from 0. `None` exactly past its end.
    pub fn left_at(&self, k: usize) -> Option<T>
        ensures { result ≡ slice_get self.now.left k }
    {
        if k < self.low {
            Some(get(&self.row, k))
        } else if k - self.low < self.end - self.high {
            Some(get(&self.row, self.high + (k - self.low)))
        } else {
            None
        }
    }

    /// The item of right at this place, counted from 0. `None` exactly past its end.
    pub fn right_at(&self, k: usize) -> Option<T>
        ensures { result ≡ slice_get self.now.right k }
    {
        if k < self.cells - self.start {
            Some(get(&self.row, self.start + k))
        } else {
            None
        }
    }

    /// How many items left has.
    pub fn left_len(&self) -> usize
        ensures value { result ≡ length self.now.left }
        ensures within { room self.now ≤ MAX_ROOM }
    {
        self.low + (self.end - self.high)
    }

    /// How many items right has.
    pub fn right_len(&self) -> usize
        ensures value { result ≡ length self.now.right }
        ensures within { room self.now ≤ MAX_ROOM }
    {
        self.cells - self.start
    }

    /// How many more items there is room for.
    pub fn spare(&self) -> usize
        ensures value { result ≡ self.now.spare }
        ensures within { room self.now ≤ MAX_ROOM }
    {
        self.high - self.low + (self.start - self.end) + self.rest
    }

    /// Takes the item of left at this place, counted from 0, out. It costs the distance from the last item
    /// that was removed so, and not that from the cursor.
    pub fn remove_left(&mut self, k: usize)
        requires { k < length self.old.left }
        ensures { self.new ≡ gap (remove self.old.left k) self.old.right (self.old.spare + 1) }
    {
        if k < self.low {
            let count = self.low - k - 1;
            self.high -= count;
            shift(&mut self.row, k + 1, self.high, count);
            self.low = k;
        } else {
            let count = k - self.low;
            shift(&mut self.row, self.high, self.low, count);
            self.low = k;
            self.high += count + 1;
        }
    }

    /// Moves the cursor so that left has so many items.
    pub fn move_to(&mut self, k: usize)
        requires { k ≤ length self.old.left + length self.old.right }
        ensures { self.new ≡ gap (take k (self.old.left ++ self.old.right))
            (drop k (self.old.left ++ self.old.right)) self.old.spare }
    {
        let len = self.low + (self.end - self.high);
        if len < k {
            // The first ones of right go behind left.
            let count = k - len;
            shift(&mut self.row, self.start, self.end, count);
            self.end += count;
            self.start += count;
        } else if self.low <= k {
            // The last of the high ones go in front of right; the hole stays.
            let count = len - k;
            self.end -= count;
            self.start -= count;
            shift(&mut self.row, self.end, self.start, count);
        } else {
            // All high ones go, and then the last of the low ones: the hole joins the room between.
            let above = self.end - self.high;
            self.start -= above;
            shift(&mut self.row, self.high, self.start, above);
            let count = self.low - k;
            self.start -= count;
            shift(&mut self.row, k, self.start, count);
            self.low = k;
            self.high = k;
            self.end = k;
        }
    }
}
