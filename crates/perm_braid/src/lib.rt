//! Simple braids, as arrangements of their strands.
#![tactic(auto)]

mod entries;
mod laws;
mod passing;
mod perm;
#[cfg(test)]
mod tests;

pub use laws::law_word;
pub use perm::{Perm, greedy_pair};
