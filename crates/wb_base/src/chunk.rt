// A short text that is collected, so that a sink gets it by one call.
ghost use Rattle.std.specs.Prelude.{◌≡◌, ◌+◌, ◌≤◌, ◌++◌, [], length, decimal};
ghost use Rattle.wb_base.specs.Numbers.{sign_text, signed_text};
ghost use Rattle.wb_base.specs.declared.TheConstants.{MAX_CHUNK};

use crate::MAX_CHUNK;
use itoa::Buffer;
use std::marker::Model;

/// A text of at most [`MAX_CHUNK`] bytes, in room of its own: it takes no memory.
///
/// A text of many short pieces is sooner with a sink by the chunk than piece by piece.
#[derive(Drop)]
pub struct Chunk {
    bytes: [u8; MAX_CHUNK],
    len: usize,
}

impl Model for Chunk {
    ghost use Rattle.std.specs.Prelude.{List, ℕ, ◌≤◌, take};
    ghost use Rattle.wb_base.specs.declared.TheConstants.{MAX_CHUNK};

    ghost Value = { List ℕ };

    ghost view = { λ s. take s.len s.bytes };

    ghost invariant = { λ s. s.len ≤ MAX_CHUNK };
}

impl Chunk {
    /// A chunk without text.
    pub fn new() -> Chunk
        ensures { result ≡ [] }
    {
        Chunk {
            bytes: [0; MAX_CHUNK],
            len: 0,
        }
    }

    /// Adds a text behind its own.
    pub fn push(&mut self, text: &[u8])
        requires room { length self.old + length text.now ≤ MAX_CHUNK }
        ensures { self.new ≡ self.old ++ text.now }
    {
        self.bytes[self.len..self.len + text.len()].copy_from_slice(text);
        self.len += text.len();
    }

    // Adds a minus sign, if this is to be negative.
    fn push_sign(&mut self, negative: bool)
        requires room { length self.old + 1 ≤ MAX_CHUNK }
        ensures { self.new ≡ self.old ++ sign_text negative }
    {
        if negative {
            self.push(b"-");
        }
    }

    /// Adds the decimal text of a number: at most 20 bytes.
    pub fn push_number(&mut self, value: u64)
        requires room { length self.old + 20 ≤ MAX_CHUNK }
        ensures text { self.new ≡ self.old ++ decimal value }
        ensures size { length self.new ≤ length self.old + 20 }
    {
        let mut buffer = Buffer::new();
        self.push(buffer.format(value).as_bytes());
    }

    /// Adds the decimal text of a number, behind a minus sign where it is negative: at most 21 bytes.
    pub fn push_signed(&mut self, negative: bool, value: u64)
        requires room { length self.old + 21 ≤ MAX_CHUNK }
        ensures text { self.new ≡ self.old ++ signed_text negative value }
        ensures size { length self.new ≤ length self.old + 21 }
    {
        self.push_sign(negative);
        self.push_number(value);
    }

    /// Its text.
    pub fn bytes(&self) -> &[u8]
        ensures text { result.now ≡ self.now }
        ensures size { length result.now ≤ MAX_CHUNK }
    {
        &self.bytes[..self.len]
    }
}
