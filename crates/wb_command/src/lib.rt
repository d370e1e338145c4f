//! What the program's commands share: arguments, inputs, refusals, and a run over a source and a sink.
#![tactic(auto)]

mod args;
mod fault;
mod input;
mod refusal;
mod streamed;
mod task;
mod term_input;

pub use args::Args;
pub use fault::Fault;
pub use input::{InputErr, read_one_word, read_two_positive_words, read_two_words};
pub use refusal::{Comes, Refusal, Written, put_refused};
pub use streamed::{Streamed, run_streamed};
pub use task::{Served, Stop, Task, run_task};
pub use term_input::refuse;

/// The most bytes of an input that is read whole.
pub const MAX_INPUT: usize = 8_388_608;

/// The most strands of a command that is given their number.
pub const MAX_STRANDS: u32 = 64;
