//! Handle reduction of braid words, by turns and within limits.
#![tactic(auto)]

mod progress;
mod reducer;
mod seek;
#[cfg(test)]
mod tests;

pub use progress::Progress;
pub use reducer::Reducer;

/// The most reductions, and the most letters, that a run may be limited to.
pub const MAX_BOUND: u32 = 100_000;
