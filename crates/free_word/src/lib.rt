//! Free words: generators of a free group, reduced words of them, their product and inverse.
#![tactic(auto)]

mod generator;
#[cfg(test)]
mod tests;
mod word;
mod writer;

pub use generator::Gen;
pub use word::{FreeWord, inverse_of, product};
pub use writer::put_free;
