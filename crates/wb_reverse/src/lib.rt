//! The program's commands that reverse braid words to fractions, and the check of reverse files.
#![tactic(auto)]

mod reverse;
mod reverse_check;

pub use reverse::Reverse;
pub use reverse_check::ReverseCheck;
