//! Shifted braid words, and the left-distributive bracket of two braid words.
#![tactic(auto)]

mod laws;
mod product;
#[cfg(test)]
mod tests;

pub use laws::{law_distributive, law_less};
pub use product::{BracketErr, bracket, shift};
