ghost use Rattle.std.specs.Prelude.{◌≡◌, ◌+◌, ◌-◌, ◌<◌, ◌≤◌, ◌↔◌, min, [], length, take, drop, Some, IfOk, OnOk, IsErr, IsTrue, MatchResult, IsOkAnd, ◌⊎◌, ◌++◌};
ghost use Rattle.wb_base.specs.Streams.{HasCause, TakesFront, GivesFront, WaitsAtMost, one_more};
ghost use Rattle.wb_base.specs.StreamStates.{is_listed, IsFull};

use crate::stream::{Failed, Sink, Source};
use std::alloc::{AllocError, Global};
use std::marker::Model;

// Copies a front of `from` to the front of `into`, of at most `most` bytes, and answers its length.
fn copy_front(from: &[u8], most: usize, into: &mut [u8]) -> usize
    ensures count { result ≡ min most (min (length from.now) (length into.new)) }
    ensures copied { take result into.new ≡ take result from.now }
{
    let n = most.min(from.len().min(into.len()));
    into[..n].copy_from_slice(&from[..n]);
    n
}

/// A source in memory, of which chosen calls fail. It tells its bytes.
#[derive(Debug, Drop)]
pub struct MemSource {
    bytes: Vec<u8>,
    at: usize,
    piece: usize,
    failing: Vec<u64>,
    calls: u64,
    faults: u64,
}

impl Model for MemSource {
    ghost use Rattle.std.specs.Prelude.{◌≤◌, drop, vec_len};
    ghost use Rattle.wb_base.specs.StreamStates.{SourceState};

    ghost Value = { SourceState };

    ghost view = { λ s. record {
      left = drop s.at s.bytes.items;
      piece = s.piece;
      failing = s.failing.items;
      calls = s.calls;
      faults = s.faults;
    } };

    ghost invariant = { λ s. (s.at ≤ vec_len s.bytes) × (1 ≤ s.piece) };
}

impl MemSource {
    /// A source of these bytes that gives at most `piece` of them in one call.
    ///
    /// The calls whose numbers, counted from 0, stand in `failing` fail.
    pub fn new(
        alloc: Global,
        bytes: &[u8],
        piece: usize,
        failing: &[u64],
    ) -> Result<MemSource, AllocError>
        requires { 1 ≤ piece }
        ensures { IfOk result
            (λ source. source
            ≡ record { left = bytes.now; piece = piece; failing = failing.now; calls = 0; faults = 0 }) }
    {
        Ok(MemSource {
            bytes: Vec::from_slice(alloc, bytes)?,
            at: 0,
            piece,
            failing: Vec::from_slice(alloc, failing)?,
            calls: 0,
            faults: 0,
        })
    }
}

impl Source for MemSource {
    ghost left = { λ s. Some s.left };

    ghost faults = { λ s. s.faults };

    ghost calls = { λ s. s.calls };

    fn take(&mut self, into: &mut [u8]) -> Result<usize, Failed>
        ensures within { IfOk result (λ n. n ≤ length into.new) }
        ensures bytes { TakesFront (Some self.old.left) (Some self.new.left) result into.new }
        ensures cause { HasCause self.old.faults self.new.faults result }
        ensures counted { self.new.calls ≡ one_more self.old.calls }

        // Exactly the listed calls fail, and any other gives as much as it may.
        ensures fails { IsTrue (is_listed self.old.failing self.old.calls) ↔ IsErr result }
        ensures gives { IfOk result
            (λ n. n ≡ min self.old.piece (min (length self.old.left) (length into.new))) }
        ensures after { MatchResult result
            (λ n. self.new ≡ record self.old { left = drop n self.old.left; calls = one_more self.old.calls })
            (λ _. self.new
            ≡ record self.old { calls = one_more self.old.calls; faults = one_more self.old.faults }) }
    {
        let fails = self.failing.contains(&self.calls);
        self.calls = self.calls.saturating_add(1);
        if fails {
            self.faults = self.faults.saturating_add(1);
            return Err(Failed);
        }
        let n = copy_front(&self.bytes[self.at..], self.piece, into);
        self.at += n;
        Ok(n)
    }
}

/// A source in memory of which no call fails. It tells its bytes.
#[derive(Debug, Drop)]
pub struct SureSource {
    inner: MemSource,
}

impl Model for SureSource {
    ghost use Rattle.std.specs.Prelude.{◌≡◌, ◌≤◌, []};
    ghost use Rattle.wb_base.specs.StreamStates.{SureState};

    ghost Value = { SureState };

    ghost view = { λ s. record {
      left = s.inner.left;
      piece = s.inner.piece;
      calls = s.inner.calls;
    } };

    ghost invariant = { λ s. (s.inner.failing ≡ []) × (1 ≤ s.inner.piece) };
}

impl SureSource {
    /// A source of these bytes that gives at most `piece` of them in one call.
    pub fn new(alloc: Global, bytes: &[u8], piece: usize) -> Result<SureSource, AllocError>
        requires { 1 ≤ piece }
        ensures { IfOk result (λ source. source ≡ record { left = bytes.now; piece = piece; calls = 0 }) }
    {
        Ok(SureSource {
            inner: MemSource::new(alloc, bytes, piece, &[])?,
        })
    }
}

impl Source for SureSource {
    ghost left = { λ s. Some s.left };

    ghost faults = { λ _. 0 };

    ghost calls = { λ s. s.calls };

    fn take(&mut self, into: &mut [u8]) -> Result<usize, Failed>
        ensures within { IfOk result (λ n. n ≤ length into.new) }
        ensures bytes { TakesFront (Some self.old.left) (Some self.new.left) result into.new }
        ensures cause { HasCause 0 0 result }
        ensures counted { self.new.calls ≡ one_more self.old.calls }

        // No call fails, and each gives as much as it may.
        ensures gives { IsOkAnd result
            (λ n. n ≡ min self.old.piece (min (length self.old.left) (length into.new))) }
        ensures after { IfOk result
            (λ n. self.new
            ≡ record self.old { left = drop n self.old.left; calls = one_more self.old.calls }) }
    {
        self.inner.take(into)
    }
}

/// A sink in memory, of which chosen calls fail. It tells its bytes.
#[derive(Debug, Drop)]
pub struct MemSink {
    taken: Vec<u8>,
    passed: usize,
    room: usize,
    piece: usize,
    failing: Vec<u64>,
    calls: u64,
    faults: u64,
}

impl Model for MemSink {
    ghost use Rattle.std.specs.Prelude.{◌≤◌, ◌-◌, vec_len, vec_capacity};
    ghost use Rattle.wb_base.specs.SinkRoom.{HasRoom};
    ghost use Rattle.wb_base.specs.StreamStates.{SinkState};

    ghost Value = { SinkState };

    ghost view = { λ s. record {
      taken = s.taken.items;
      waiting = vec_len s.taken - s.passed;
      room = s.room;
      piece = s.piece;
      failing = s.failing.items;
      calls = s.calls;
      faults = s.faults;
    } };

    ghost invariant = { λ s. HasRoom s.passed (vec_len s.taken) s.room (vec_capacity s.taken) s.piece };
}

impl MemSink {
    /// A sink with room for this many bytes that takes at most `piece` of them in one call.
    ///
    /// The calls of `give` and `done` whose numbers, counted together from 0, stand in `failing` fail.
    pub fn new(
        alloc: Global,
        room: usize,
        piece: usize,
        failing: &[u64],
    ) -> Result<MemSink, AllocError>
        requires { 1 ≤ piece }
        ensures { IfOk result
            (λ sink. sink
            ≡ record {
              taken = [];
              waiting = 0;
              room = room;
              piece = piece;
              failing = failing.now;
              calls = 0;
              faults = 0;
            }) }
    {
        Ok(MemSink {
            taken: Vec::with_capacity(alloc, room)?,
            passed: 0,
            room,
            piece,
            failing: Vec::from_slice(alloc, failing)?,
            calls: 0,
            faults: 0,
        })
    }

    /// The bytes that were taken.
    pub fn bytes(&self) -> &[u8]
        ensures { result.now ≡ self.now.taken }
    {
        &self.taken
    }

    // Counts a call, and answers whether it is one of those that fail.
    fn is_failing(&mut self) -> bool
        ensures listed { result ≡ is_listed self.old.failing self.old.calls }
        ensures counted { self.new ≡ record self.old { calls = one_more self.old.calls } }
    {
        let listed = self.failing.contains(&self.calls);
        self.calls = self.calls.saturating_add(1);
        listed
    }

    // Counts a fault.
    fn fault(&mut self) -> Failed
        ensures counted { self.new ≡ record self.old { faults = one_more self.old.faults } }
        ensures later { self.old.faults ≤ self.new.faults }
    {
        self.faults = self.faults.saturating_add(1);
        Failed
    }
}

impl Sink for MemSink {
    ghost taken = { λ s. Some s.taken };

    ghost waiting = { λ s. s.waiting };

    ghost faults = { λ s. s.faults };

    fn give(&mut self, bytes: &[u8]) -> Result<usize, Failed>
        ensures within { IfOk result (λ n. n ≤ length bytes.now) }
        ensures took { GivesFront (Some self.old.taken) (Some self.new.taken) result bytes.now }
        ensures waits { WaitsAtMost self.old.waiting self.new.waiting result }
        ensures cause { HasCause self.old.faults self.new.faults result }

        // Exactly the listed calls fail, and those that find no room for a byte.
        ensures fails { (IsTrue (is_listed self.old.failing self.old.calls) ⊎ IsFull self.old bytes.now)
            ↔ IsErr result }
        ensures gives { IfOk result
            (λ n. n ≡ min self.old.piece (min (length bytes.now) (self.old.room - length self.old.taken))) }
        ensures after { MatchResult result
            (λ n. self.new
            ≡ record self.old {
              taken = self.old.taken ++ take n bytes.now;
              waiting = self.old.waiting + n;
              calls = one_more self.old.calls;
            })
            (λ _. self.new
            ≡ record self.old { calls = one_more self.old.calls; faults = one_more self.old.faults }) }
    {
        let fails = self.is_failing();
        let left = self.room - self.taken.len();
        if fails || (left == 0 && !bytes.is_empty()) {
            return Err(self.fault());
        }
        let n = self.piece.min(bytes.len().min(left));
        let Ok(()) = self.taken.extend_from_slice(&bytes[..n]) else {
            unreachable!();
        };
        Ok(n)
    }

    fn done(&mut self) -> Result<(), Failed>
        ensures kept { Some self.new.taken ≡ Some self.old.taken }
        ensures passed { OnOk result (self.new.waiting ≡ 0) }
        ensures waits { self.new.waiting ≤ self.old.waiting }
        ensures cause { HasCause self.old.faults self.new.faults result }

        // Exactly the listed calls fail.
        ensures fails { IsTrue (is_listed self.old.failing self.old.calls) ↔ IsErr result }
        ensures after { MatchResult result
            (λ _. self.new ≡ record self.old { waiting = 0; calls = one_more self.old.calls })
            (λ _. self.new
            ≡ record self.old { calls = one_more self.old.calls; faults = one_more self.old.faults }) }
    {
        if self.is_failing() {
            return Err(self.fault());
        }
        self.passed = self.taken.len();
        Ok(())
    }
}
