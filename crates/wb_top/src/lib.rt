//! The top call of the program: from the words of its command line and its input to its output.
#![tactic(auto)]

mod command;
mod laws;
mod program;
mod session;
#[cfg(test)]
mod tests;

pub use command::{Command, read_command};
pub use laws::law_one_answer;
pub use program::run;
pub use session::Session;
