//! Files of lines, of any format: they are checked line by line, in whatever pieces their bytes come.
#![tactic(auto)]

mod checker;
mod file;
mod format;
mod laws;
mod source;
#[cfg(test)]
mod tests;

pub use checker::Checker;
pub use file::check_file;
pub use format::{FileErr, LineFormat, Stop};
pub use laws::{law_first_refusal, law_pieces};
pub use source::{SourceErr, check_source};
