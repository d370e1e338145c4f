ghost use Rattle.std.specs.Prelude.{◌≡◌, true, SomeIff};
ghost use Rattle.std.specs.List.{list_all};
ghost use Rattle.wb_base.specs.Names.{is_name_byte, is_name};

use std::marker::Model;

/// The most bytes of a name.
const MAX_NAME: usize = 32;

/// A name of 1 to 32 bytes: the first is in `a` to `z`, the others in `a` to `z` or `0` to `9`.
#[derive(Clone, Copy, Debug, PartialEq, Eq, Hash)]
pub struct Name {
    // The name, and zeros behind it.
    bytes: [u8; MAX_NAME],
    len: usize,
}

impl Model for Name {
    ghost use Rattle.std.specs.Prelude.{List, ℕ, length, take};
    ghost use Rattle.wb_base.specs.Names.{padded, IsStored};
    ghost use Rattle.std.proofs.Common.{arith, sym, length-take-le};

    ghost Value = { List ℕ };

    ghost view = { λ s. take s.len s.bytes };

    ghost invariant = { λ s. IsStored s.bytes s.len };

    ghost inverse = { λ name. record { bytes = padded name; len = length name } };

    ghost inverse_ok = { λ s h i. record {
      bytes = sym h.unused i;
      len = length-take-le s.len s.bytes (omega (arith, h.within, h.whole)) i;
    } };
}

// Whether a byte may stand in a name behind its first.
fn is_name_byte(byte: u8) -> bool
    ensures { result ≡ is_name_byte byte }
{
    byte.is_ascii_lowercase() || byte.is_ascii_digit()
}

// Whether each byte may stand in a name behind its first.
fn are_name_bytes(bytes: &[u8]) -> bool
    ensures { result ≡ list_all is_name_byte bytes.now }
{
    bytes.iter().all(|byte| is_name_byte(*byte))
}

// Whether some bytes are a name.
fn is_name(bytes: &[u8]) -> bool
    ensures { result ≡ is_name bytes.now }
{
    match bytes {
        [] => false,
        [first, rest @ ..] => {
            first.is_ascii_lowercase() && rest.len() < MAX_NAME && are_name_bytes(rest)
        }
    }
}

impl Name {
    /// The name that some bytes are, if they are one.
    pub fn read(bytes: &[u8]) -> Option<Name>
        ensures { SomeIff result (is_name bytes.now ≡ true) bytes.now }
    {
        if !is_name(bytes) {
            return None;
        }
        let mut stored = [0; MAX_NAME];
        stored[..bytes.len()].copy_from_slice(bytes);
        Some(Name {
            bytes: stored,
            len: bytes.len(),
        })
    }

    /// The bytes of the name.
    pub fn bytes(&self) -> &[u8]
        ensures bytes { result.now ≡ self.now }
        ensures name { is_name result.now ≡ true }
    {
        &self.bytes[..self.len]
    }
}
