//! Left-distributive expansion of terms that share their parts, distribution and derivation.
#![tactic(auto)]

mod address;
mod derivation;
#[cfg(test)]
mod distribute_tests;
mod distribution;
mod error;
#[cfg(test)]
mod expand_tests;
mod expansion;
mod memo;

pub use address::is_address;
pub use derivation::derive;
pub use distribution::distribute;
pub use error::ExpandErr;
pub use expansion::expand;

/// The most bytes of an address, which are as many as the greatest height of a term.
pub const MAX_ADDRESS: usize = 1_000;
