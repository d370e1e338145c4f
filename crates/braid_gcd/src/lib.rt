//! Greatest common left divisors of positive braids.
#![tactic(auto)]

mod common;
mod divide;
mod divisor;
mod error;
mod faults;
mod forms;
mod laws;
mod pass;
mod spell;
#[cfg(test)]
mod tests;

pub use divide::gcd;
pub use divisor::CommonDivisor;
pub use error::GcdErr;
pub use laws::law_greatest;

/// The most letters of each of two words that a common divisor is found of.
pub const MAX_DIVIDED: usize = 2_000;

/// The most strands of words that a common divisor is found of.
pub const MAX_STRANDS: u32 = 64;
