//! Normal forms of braids: two words are equivalent exactly where theirs are one.
#![tactic(auto)]

mod error;
mod form;
mod law;
mod letters;
mod lists;
mod make;
#[cfg(test)]
mod tests;
mod writer;

pub use error::NormalErr;
pub use form::{NormalForm, same};
pub use law::law_one_form;
pub use lists::put_back;
pub use make::{normal, normal_on};
pub use writer::put_normal;
