// The words of a command line, read one after the other.
ghost use Rattle.std.specs.Prelude.{◌≡◌, ◌≤◌, ◌-◌, ◌^◌, ◌↔◌, [], map, string_bytes, IfNone, IfSome, IsTrue, Some, None};
ghost use Rattle.wb_command.specs.Args.{first_number, first_word, rest_of};

use std::marker::Model;
use wb_base::{read_number, read_within};

/// The words of a command line after the command's name, read one after the other.
#[derive(Debug, Drop)]
pub struct Args<'a> {
    words: &'a [String],
}

impl<'a> Model for Args<'a> {
    ghost use Rattle.std.specs.Prelude.{List, ℕ, map, string_bytes};

    ghost Value = { List (List ℕ) };

    ghost view = { λ s. map string_bytes s.words.now };
}

impl<'a> Args<'a> {
    /// All of these words.
    pub fn new(words: &'a [String]) -> Args<'a>
        ensures { result ≡ map string_bytes words.now }
    {
        Args { words }
    }

    /// The next word, as bytes; `None` where no word is left.
    pub fn word(&mut self) -> Option<&'a [u8]>
        ensures some { IfSome result (λ word. first_word self.old ≡ Some word.now) }
        ensures none { IfNone result (first_word self.old ≡ None) }
        ensures rest { self.new ≡ rest_of self.old }
    {
        let (word, rest) = self.words.split_first()?;
        self.words = rest;
        Some(word.as_bytes())
    }

    /// The next word, as a number from `low` to `high`; `None` where it is none, or no word is left.
    pub fn number(&mut self, low: u32, high: u32) -> Option<u32>
        ensures number { result ≡ first_number low high self.old }
        ensures rest { self.new ≡ rest_of self.old }
        ensures low { IfSome result (λ n. low ≤ n) }
        ensures high { IfSome result (λ n. n ≤ high) }
    {
        let word = self.word()?;
        read_within(word, low, high)
    }

    /// The next word, as a number of 64 bits.
    pub fn long_number(&mut self) -> Option<u64>
        ensures number { result ≡ first_number 0 (2 ^ 64 - 1) self.old }
        ensures rest { self.new ≡ rest_of self.old }
    {
        let word = self.word()?;
        let (value, digits) = read_number(word)?;
        (digits == word.len()).then_some(value)
    }

    /// Whether no word is left.
    pub fn is_at_end(&self) -> bool
        ensures { IsTrue result ↔ (self.now ≡ []) }
    {
        self.words.is_empty()
    }
}
