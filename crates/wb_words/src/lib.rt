//! The program's commands on words: normal forms, common divisors, images of generators, tallies of runs.
#![tactic(auto)]

mod act;
mod bench;
mod gcd;
mod normal;

pub use act::Act;
pub use bench::{Bench, Pairs};
pub use gcd::Gcd;
pub use normal::Normal;

/// The most generators that an image may be allowed to have.
pub const MAX_IMAGE: u32 = 100_000;

/// The most letters of a word that `bench` makes.
pub const MAX_SIZE: u32 = 1_000;

/// The most pairs that `bench` makes.
pub const MAX_COUNT: u32 = 1_000;
