ghost use Rattle.std.specs.Prelude.{◌≡◌, ◌≢◌, ◌⊎◌, ◌≤◌, ◌∷◌, ◌++◌, true, false, List, length, Some, IfOk, IfErr, IsErrOf};
ghost use Rattle.ld_term.specs.Terms.{Term};
ghost use Rattle.ld_term.specs.Written.{Written, HasNoName};
ghost use Rattle.ld_term.specs.Tokens.{Token, tokens_of, tokens_from};
ghost use Rattle.ld_term.specs.Grammar.{atom_tokens, IsTermText};
ghost use Rattle.ld_term.specs.TreeTexts.{written, StartsAtom, IsBehind, IsAtom};
ghost use Rattle.ld_term.specs.Refusals.{IsSmall, IsRefused};
ghost use Rattle.ld_term.specs.StrictTexts.{as_written, strict_term_of, IsStrictRefusal};
ghost use Rattle.ld_term.specs.declared.term_err.TermErr.{TermErr as Refusal};
ghost use Rattle.ld_term.specs.declared.term_err.TermErr.TheVariants.{Memory};

use crate::MAX_HEIGHT;
use crate::shape::measure;
use crate::term_err::TermErr;
use crate::token::{Kind, next_piece};
use std::alloc::{AllocError, Global};
use wb_base::Name;

/// A term: the variable, a name that stands for a term, or a product.
#[derive(Debug, Drop)]
pub enum Tree {
    /// The variable.
    X,
    /// A name.
    Named {
        /// The name.
        name: Name,
        /// The place of its first byte in the line, counted from 1.
        place: usize,
    },
    /// A product.
    Product(Box<Tree>, Box<Tree>),
}

// The place behind the next token, which is there.
fn skip(line: &[u8], from: usize, strict: bool) -> usize
    requires { (token : Token) × (rest : List Token) × IsBehind strict line.now from (token ∷ rest) }
    ensures { (token : Token) → (rest : List Token) → IsBehind strict line.now from (token ∷ rest)
        → IsBehind strict line.now result rest }
{
    let Some(piece) = next_piece(line, from, strict) else {
        unreachable!();
    };
    piece.end
}

// The tree of the atom behind a place, and the place behind it.
fn atom_at(
    alloc: Global,
    line: &[u8],
    from: usize,
    strict: bool,
    depth: u64,
) -> Result<(Tree, usize), AllocError>
    requires { StartsAtom strict line.now from depth }
    ensures { IfOk result
        (λ r. (t : Written) → (rest : List Token)
        → tokens_of (tokens_from strict from line.now) ≡ atom_tokens t ++ rest
        → IsAtom strict line.now r.1 r.0 t rest) }
{
    let Some(piece) = next_piece(line, from, strict) else {
        unreachable!();
    };
    match piece.kind {
        Kind::Variable => Ok((Tree::X, piece.end)),
        Kind::Name => {
            let Some(name) = Name::read(&line[piece.start..piece.end]) else {
                unreachable!();
            };
            let place = piece.start + 1;
            Ok((Tree::Named { name, place }, piece.end))
        }
        Kind::Open => {
            let (left, at) = atom_at(alloc, line, piece.end, strict, depth - 1)?;
            let at = skip(line, at, strict);
            let (right, at) = atom_at(alloc, line, at, strict, depth - 1)?;
            let end = skip(line, at, strict);
            let left = Box::new(alloc, left)?;
            let right = Box::new(alloc, right)?;
            Ok((Tree::Product(left, right), end))
        }
        _ => unreachable!(),
    }
}

// The tree of the term behind a place.
fn term_at(alloc: Global, line: &[u8], from: usize, strict: bool) -> Result<Tree, AllocError>
    requires within { from ≤ length line.now }
    requires text { (t : Written) × IsTermText strict (tokens_of (tokens_from strict from line.now)) t
        × IsSmall t }
    ensures { IfOk result
        (λ tree. (t : Written) → IsTermText strict (tokens_of (tokens_from strict from line.now)) t
        → t ≡ written tree) }
{
    let (left, at) = atom_at(alloc, line, from, strict, MAX_HEIGHT)?;
    let Some(star) = next_piece(line, at, strict) else {
        return Ok(left);
    };
    let (right, _) = atom_at(alloc, line, star.end, strict, MAX_HEIGHT)?;
    let left = Box::new(alloc, left)?;
    let right = Box::new(alloc, right)?;
    Ok(Tree::Product(left, right))
}

/// The term behind a place, within the bounds.
pub(crate) fn read_from(
    alloc: Global,
    line: &[u8],
    from: usize,
    strict: bool,
) -> Result<Tree, TermErr>
    requires { from ≤ length line.now }
    ensures tree { IfOk result
        (λ tree. IsTermText strict (tokens_of (tokens_from strict from line.now)) (written tree)) }
    ensures small { IfOk result (λ tree. IsSmall (written tree)) }
    ensures refused { IfErr result
        (IsRefused (IsTermText strict) (tokens_from strict from line.now) (length line.now)) }
{
    measure(alloc, line, from, strict)?;
    Ok(term_at(alloc, line, from, strict)?)
}

/// The term that a line is, in which the outermost brackets may be left out.
///
/// Spaces may stand between the tokens. It reads in two passes: the first finds the form, the height and the
/// number of products, and builds no term; the second builds the term, only where these are within the
/// bounds.
pub fn read_term(alloc: Global, line: &[u8]) -> Result<Tree, TermErr>
    ensures tree { IfOk result
        (λ tree. IsTermText false (tokens_of (tokens_from false 0 line.now)) (written tree)) }
    ensures small { IfOk result (λ tree. IsSmall (written tree)) }
    ensures refused { IfErr result
        (IsRefused (IsTermText false) (tokens_from false 0 line.now) (length line.now)) }

    // The refusal that is due is given, unless memory runs out.
    ensures exact { (e : Refusal) → e ≢ Memory
        → IsRefused (IsTermText false) (tokens_from false 0 line.now) (length line.now) e
        → IsErrOf result e ⊎ IsErrOf result Memory }
{
    read_from(alloc, line, 0, false)
}

/// The term that some bytes are in the strict spelling: brackets round each product, no spaces and no names.
pub fn read_strict(alloc: Global, bytes: &[u8]) -> Result<Tree, TermErr>
    ensures tree { IfOk result
        (λ tree. IsTermText true (tokens_of (tokens_from true 0 bytes.now)) (written tree)) }
    ensures nameless { IfOk result (λ tree. HasNoName (written tree)) }
    ensures small { IfOk result (λ tree. IsSmall (written tree)) }
    ensures refused { IfErr result
        (IsRefused (IsTermText true) (tokens_from true 0 bytes.now) (length bytes.now)) }

    // The same by the term whose strict text the bytes are, if there is one.
    ensures term { IfOk result
        (λ tree. (t : Term) × (strict_term_of bytes.now ≡ Some t) × (written tree ≡ as_written t)) }
    ensures cause { IfErr result (IsStrictRefusal (strict_term_of bytes.now)) }

    // The refusal that is due is given, unless memory runs out.
    ensures exact { (e : Refusal) → e ≢ Memory
        → IsRefused (IsTermText true) (tokens_from true 0 bytes.now) (length bytes.now) e
        → IsErrOf result e ⊎ IsErrOf result Memory }
{
    read_from(alloc, bytes, 0, true)
}
