ghost use Rattle.std.specs.Prelude.{◌≡◌, ℕ, ◌+◌, ◌≤◌, List, length, Option, IfOk, OnOk};
ghost use Rattle.wb_base.specs.Streams.{HasCause, TakesFront, GivesFront, WaitsAtMost, Puts, one_more};

use thiserror::Error;

/// A source or a sink met a fault: its count of faults rose.
#[derive(Clone, Copy, Debug, PartialEq, Eq, Error)]
#[error("a stream failed")]
pub struct Failed;

/// Where bytes come from.
pub trait Source {
    /// The bytes left, where they are told.
    ghost left: { Self → Option (List ℕ) };

    /// How many faults there were. It never falls, and stops at the greatest u64.
    ghost faults: { Self → ℕ };

    /// How many calls of `take` there were, up to the greatest u64.
    ghost calls: { Self → ℕ };

    /// Fills the front of `into` with the next bytes, and answers how many these are.
    ///
    /// `Ok(0)` for a buffer that isn't empty comes only at the end. After `Failed` nothing was taken.
    fn take(&mut self, into: &mut [u8]) -> Result<usize, Failed>
        ensures within { IfOk result (λ n. n ≤ length into.new) }
        ensures bytes { TakesFront (left self.old) (left self.new) result into.new }
        ensures cause { HasCause (faults self.old) (faults self.new) result }
        ensures counted { calls self.new ≡ one_more (calls self.old) };
}

/// Where bytes go.
pub trait Sink {
    /// The bytes taken, where they are told.
    ghost taken: { Self → Option (List ℕ) };

    /// How many of the bytes taken wait: they weren't passed on yet.
    ghost waiting: { Self → ℕ };

    /// How many faults there were. It never falls, and stops at the greatest u64.
    ghost faults: { Self → ℕ };

    /// Takes a front of the bytes, and answers the length of that front: at least 1 where there is a byte.
    ///
    /// After `Failed` none of them was taken; bytes that waited may have been passed on.
    fn give(&mut self, bytes: &[u8]) -> Result<usize, Failed>
        ensures within { IfOk result (λ n. n ≤ length bytes.now) }
        ensures took { GivesFront (taken self.old) (taken self.new) result bytes.now }
        ensures waits { WaitsAtMost (waiting self.old) (waiting self.new) result }
        ensures cause { HasCause (faults self.old) (faults self.new) result };

    /// Passes on what was taken, so that no byte waits.
    ///
    /// After `Failed` some of the bytes that waited may have been passed on.
    fn done(&mut self) -> Result<(), Failed>
        ensures kept { taken self.new ≡ taken self.old }
        ensures passed { OnOk result (waiting self.new ≡ 0) }
        ensures waits { waiting self.new ≤ waiting self.old }
        ensures cause { HasCause (faults self.old) (faults self.new) result };
}

/// Gives all the bytes to a sink. After `Failed` it has taken a front of them.
pub fn give_all<K: Sink>(sink: &mut K, bytes: &[u8]) -> Result<(), Failed>
    ensures took { Puts (K.taken sink.old) (K.taken sink.new) result bytes.now }
    ensures cause { HasCause (K.faults sink.old) (K.faults sink.new) result }
    ensures waits { K.waiting sink.new ≤ K.waiting sink.old + length bytes.now }
{
    let mut given = 0;
    while given < bytes.len() {
        given += sink.give(&bytes[given..])?;
    }
    Ok(())
}
