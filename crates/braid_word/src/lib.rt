//! Braid words: letters, words, their text, inverses, quotients and signs.
#![tactic(auto)]

mod account;
mod letter;
mod reader;
mod sign;
#[cfg(test)]
mod tests;
mod word;
mod writer;

pub use account::Account;
pub use letter::Letter;
pub use reader::{WordErr, read_strict_word, read_word, read_word_field};
pub use sign::{Sign, sign_of};
pub use word::{Word, first_negative, first_outside, inverse, quotient};
pub use writer::{push_next_letter, put_letter, put_word, put_word_line};

/// The greatest index of a letter in a word that is read.
pub const MAX_INDEX: u16 = 255;

/// The most letters of a word that is read. Where a trace is checked, also of the quotient and of the word
/// after each step.
pub const MAX_LETTERS: usize = 100_000;

/// How many letters, each behind a space, a [`wb_base::Chunk`] has room for.
pub const LETTERS_AT_ONCE: usize = 46;
