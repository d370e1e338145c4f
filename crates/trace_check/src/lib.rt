//! The checker of trace files: it replays the steps of a file, of any maker, and accepts only what holds.
#![tactic(auto)]

mod checked;
mod checker;
mod due;
mod file;
mod keep;
mod known;
mod laws;
mod present;
mod reading;
mod replay;
mod steps;
#[cfg(test)]
mod tests;

pub use checked::{CheckErr, Checked, Why};
pub use checker::Checker;
pub use file::{check, check_source};
pub use laws::law_checked;

/// The most bytes of a line, without its LF.
pub const MAX_LINE: usize = 524_288;
