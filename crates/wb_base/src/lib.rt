//! Streams of bytes, decimal numbers, lines, names, the program's status, and a count of steps.
#![tactic(auto)]

mod chunk;
mod edge;
mod field;
mod line_iter;
mod memory;
mod name;
mod number;
mod standard;
mod status;
mod steps;
mod stream;
mod text;
mod whole;

pub use chunk::Chunk;
pub use field::{read_place, split_keyword};
pub use line_iter::{LineIter, count_lines, lines};
pub use memory::{MemSink, MemSource, SureSource};
pub use name::Name;
pub use number::{is_canonical, put_number, put_signed, read_number, read_within};
pub use standard::{StdSink, StdSource};
pub use status::Status;
pub use steps::Steps;
pub use stream::{Failed, Sink, Source, give_all};
pub use text::{put_line, put_numbered, put_numbered_line};
pub use whole::{ReadErr, read_all};

/// The most bytes to which [`read_all`] may be limited.
pub const MAX_WHOLE: usize = 67_108_864;

/// The most bytes that a [`Chunk`] holds.
pub const MAX_CHUNK: usize = 1024;

#[cfg(test)]
mod tests;
