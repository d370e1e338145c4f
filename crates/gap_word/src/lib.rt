//! A buffer with a cursor, whose items are put in and taken out at the cursor.
#![tactic(auto)]

mod block;
mod buffer;
mod held;
mod places;
#[cfg(test)]
mod tests;

pub use buffer::GapWord;

/// The most items that a buffer may have room for.
pub const MAX_ROOM: usize = 1_000_000;
