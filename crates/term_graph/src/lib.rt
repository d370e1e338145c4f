//! Terms that share their parts: a number stands for a term, and each product is kept once.
#![tactic(auto)]

mod error;
mod file_error;
mod file_law;
#[cfg(test)]
mod file_tests;
mod graph;
mod insert;
mod laws;
mod listing;
mod listing_law;
#[cfg(test)]
mod listing_tests;
mod names;
mod node;
mod strict;
mod term_file;
#[cfg(test)]
mod tests;

pub use error::{GraphErr, NameErr};
pub use file_error::DefsErr;
pub use file_law::law_one_file;
pub use graph::TermGraph;
pub use laws::{law_growth, law_requests};
pub use listing::{Listing, put_listing};
pub use listing_law::law_listing;
pub use names::Names;
pub use node::{Node, NodeId};
pub use term_file::{TermFile, read_terms};

/// The most products of a graph.
pub const MAX_NODES: u32 = 100_000;
