//! Certificates for left-distributive equivalence: files that show that two terms are equivalent, or aren't.
#![tactic(auto)]

mod checked;
mod derive;
#[cfg(test)]
mod derive_tests;
mod difference;
mod due;
mod file;
mod keep;
mod laws;
mod leaves;
mod path;
mod reading;
#[cfg(test)]
mod tests;

pub use checked::{LdAnswer, LdChecked, LdErr, LdWhy};
pub use derive::{CertErr, derive_certificate};
pub use difference::differ;
pub use file::check_ld;
pub use laws::{law_answers, law_checked};

/// The most bytes of a line, without its LF.
pub const MAX_LINE: usize = 524_288;

/// The most leaves of a derived term of which a certificate is written.
pub const MAX_DERIVED_LEAVES: u64 = 300;
