//! The braid words of terms, and their values in Laver tables.
#![tactic(auto)]

mod laws;
mod table_value;
#[cfg(test)]
mod tests;
#[cfg(test)]
mod value_tests;
mod word;

pub use laws::{law_braid_word, law_equivalent_braids, law_less_braid};
pub use table_value::value;
pub use word::{EvalErr, eval};
