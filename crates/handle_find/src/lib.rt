//! Handles of braid words: the leftmost one, the reduct of a word at a handle, and a word with a cursor that
//! is reduced in place.
//!
//! Places of letters count from 0.
#![tactic(auto)]

mod closing;
mod handle;
mod left_sign;
mod rewrite;
mod scan;
#[cfg(test)]
mod tests;
mod walk;

pub use closing::take_back;
pub use handle::{is_handle, leftmost};
pub use rewrite::{reduct, reduct_len};
pub use scan::{Advance, Scan, put_word};
pub use walk::letter_at;
