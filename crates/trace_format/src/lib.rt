//! Trace files: their lines, and their text.
#![tactic(auto)]

mod laws;
mod line;
#[cfg(test)]
mod tests;
mod trace;
mod verdict;

pub use laws::law_trace_text;
pub use line::{Kind, Line, LineErr, StepLine, kind_of, read_line};
pub use trace::{put_term_trace, put_trace};
pub use verdict::{Verdict, verdict_of};

// How many lines of steps a chunk of text has room for.
const STEPS_AT_ONCE: u32 = 23;
