//! Artin's action of braid words on free words, and the laws of the order that follow from it.
#![tactic(auto)]

mod action;
mod laws;
#[cfg(test)]
mod tests;

pub use action::{ActErr, act};
pub use laws::{law_exclusive, law_larue, law_relations};
