//! Right reversing of braid words to fractions, by turns and within limits; and the files that show it.
#![tactic(auto)]

#[cfg(test)]
mod check_tests;
mod cursor;
mod due;
mod file;
mod fraction;
mod keep;
mod laws;
mod line;
mod present;
mod progress;
mod reverser;
#[cfg(test)]
mod tests;
mod text;

pub use file::{ReverseFile, check_reverse};
pub use fraction::{Fraction, ReverseErr, ReverseWhy};
pub use laws::{law_checked, law_leftmost_corner, law_turned_corner, law_written_reversal};
pub use progress::RevProgress;
pub use reverser::Reverser;
pub use text::put_reversal;

/// The most corners, and the most letters of a word, that a run may be limited to.
pub const MAX_BOUND: u32 = 100_000;

/// The most bytes of a line of a reverse file, without its LF.
pub const MAX_LINE: usize = 524_288;

// How many lines of steps a chunk of text has room for.
const STEPS_AT_ONCE: u32 = 44;
