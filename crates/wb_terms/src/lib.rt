//! The program's commands on left-distributive terms and on Laver tables.
#![tactic(auto)]

mod derive;
mod eval;
mod expand;
mod laver;
mod listed;
mod row;
mod value;

pub use derive::Derive;
pub use eval::Eval;
pub use expand::Expand;
pub use laver::Laver;
pub use row::Row;
pub use value::Valuation;

/// The greatest exponent of the size of a Laver table that is given whole.
pub const MAX_PRINTED: u32 = 8;
