//! Laver tables: the left-distributive products on the numbers 1 to 2^n.
#![tactic(auto)]

mod growth;
mod law;
mod levels;
mod table;
mod writer;

pub use law::{law_doubling, law_one_table};
pub use table::Table;
pub use writer::{put_row, put_table};

/// The greatest n for which the table of size 2^n is built.
pub const MAX_EXPONENT: u32 = 14;

#[cfg(test)]
mod tests;
