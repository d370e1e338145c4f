//! Terms: their grammar, and reading and writing them.
#![tactic(auto)]

mod definition;
mod laws;
mod levels;
mod reader;
mod shape;
mod term_err;
#[cfg(test)]
mod tests;
mod token;
mod tree;
mod writer;

pub use definition::{Definition, read_definition};
pub use laws::{law_one_definition, law_one_term, law_strict_text};
pub use term_err::TermErr;
pub use tree::{Tree, read_strict, read_term};
pub use writer::put_term;

/// The greatest height of a term that is read.
pub const MAX_HEIGHT: u64 = 1_000;

/// The most products of a term that is read.
pub const MAX_PRODUCTS: u64 = 100_000;
