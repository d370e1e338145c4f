//! The program's commands that compare braids, and the check of trace files.
#![tactic(auto)]

mod check;
mod compare;
mod reduce;
mod same;
mod terms;

pub use check::Check;
pub use compare::Compare;
pub use same::Same;
pub use terms::CompareTerms;
