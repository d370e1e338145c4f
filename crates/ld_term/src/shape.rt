// The first pass over a line: its form, and the bounds on its height and its products.

ghost use Rattle.std.specs.Prelude.{◌≡◌, ℕ, ◌≤◌, List, length, OnOk, IfErr};
ghost use Rattle.ld_term.specs.Written.{Written};
ghost use Rattle.ld_term.specs.Tokens.{tokens_of, tokens_from};
ghost use Rattle.ld_term.specs.Grammar.{IsTermText};
ghost use Rattle.ld_term.specs.Held.{token_from, one_star};
ghost use Rattle.ld_term.specs.Refusals.{IsSmall, IsRefused};

use crate::reader::Reader;
use crate::term_err::TermErr;
use crate::token::{Kind, next_piece};
use crate::{MAX_HEIGHT, MAX_PRODUCTS};
use std::alloc::Global;

// How many stars a piece of this kind is.
fn stars(kind: Kind) -> u64
    ensures value { (bytes : List ℕ) → (place : ℕ) → result ≡ one_star (token_from kind bytes place) }
    ensures one { result ≤ 1 }
{
    match kind {
        Kind::Star => 1,
        _ => 0,
    }
}

/// Whether a line is a term behind this place, within the bounds on height and products.
///
/// No term is built, so that neither the stack nor a term's drop goes as deep as a line of brackets.
pub(crate) fn measure(alloc: Global, line: &[u8], from: usize, strict: bool) -> Result<(), TermErr>
    requires { from ≤ length line.now }
    ensures text { OnOk result
        ((t : Written) × IsTermText strict (tokens_of (tokens_from strict from line.now)) t × IsSmall t) }
    ensures refused { IfErr result
        (IsRefused (IsTermText strict) (tokens_from strict from line.now) (length line.now)) }
{
    let mut reader = Reader::new(alloc);
    let mut products = 0;
    let mut at = from;
    while let Some(piece) = next_piece(line, at, strict) {
        if !reader.take(piece.kind, strict)? {
            return Err(TermErr::Form {
                place: piece.start as u64 + 1,
            });
        }
        products += stars(piece.kind);
        at = piece.end;
    }
    let Some(height) = reader.height() else {
        return Err(TermErr::Form {
            place: line.len() as u64 + 1,
        });
    };
    if height > MAX_HEIGHT {
        return Err(TermErr::TooDeep { height });
    }
    if products > MAX_PRODUCTS {
        return Err(TermErr::TooMany { products });
    }
    Ok(())
}
