//! Sessions: command lines, and runs of handle reduction that go on side by side.
#![tactic(auto)]

mod command;
mod job;
mod law;
mod reply;
mod serving;
mod session;
mod talk;
mod writer;

pub use command::{Command, CommandErr, read_command};
pub use law::{law_own_replies, law_own_turns};
pub use reply::{JobLine, Reply};
pub use serving::serve;
pub use session::Session;
pub use writer::put_reply;

/// The most jobs that are open at one time.
pub const MAX_JOBS: usize = 64;

/// The most bytes of a session's input.
pub const MAX_INPUT: usize = 8_388_608;

/// The most bytes that a session takes at one time.
pub const MAX_PIECE: usize = 4096;

#[cfg(test)]
mod tests;
