ghost use Rattle.std.specs.Prelude.{◌≡◌, ℕ, ◌<◌, List, length, slice_get, Some};
ghost use Rattle.braid_word.specs.Words.{Letter as Signed};

use crate::letter::Letter;

/// What a run of reductions has done: its steps, and the word that it has reached.
pub trait Account {
    /// The steps, each a pair of places counted from 1.
    ghost steps: { Self → List (ℕ × ℕ) };

    /// The word that was reached.
    ghost current: { Self → List Signed };

    /// How many steps were made.
    fn steps_done(&self) -> u32
        ensures { result ≡ length (steps self.now) };

    /// The k-th step, counted from 0: two places of letters, counted from 1, in the word before it.
    fn step_at(&self, k: u32) -> (u32, u32)
        requires { k < length (steps self.now) }
        ensures { slice_get (steps self.now) k ≡ Some result };

    /// How many letters the word has that was reached.
    fn current_len(&self) -> u32
        ensures { result ≡ length (current self.now) };

    /// Its k-th letter, counted from 0.
    fn current_at(&self, k: u32) -> Letter
        requires { k < length (current self.now) }
        ensures { slice_get (current self.now) k ≡ Some result };
}
