ghost use Rattle.std.specs.Prelude.{◌≡◌, ◌↔◌, ◌⊎◌, IsTrue};
ghost use Rattle.term_expand.specs.Expansions.{IsAddress};

use crate::MAX_ADDRESS;

// Whether a byte is a side: `0` for the left one, `1` for the right one.
fn is_side(byte: u8) -> bool
    ensures { IsTrue result ↔ ((byte ≡ 48) ⊎ (byte ≡ 49)) }
{
    byte == b'0' || byte == b'1'
}

/// Whether some bytes are an address: at most 1,000 of them, each `0` or `1`.
///
/// The empty address is that of the term itself. Each byte leads from a product to its left part at `0`, and
/// to its right part at `1`.
pub fn is_address(bytes: &[u8]) -> bool
    ensures { IsTrue result ↔ IsAddress bytes.now }
{
    bytes.len() <= MAX_ADDRESS && bytes.iter().all(|byte| is_side(*byte))
}
