ghost use Rattle.std.specs.Prelude.{◌≡◌, ◌≢◌, ◌⊎◌, length, false, IfOk, IfErr, IsErrOf};
ghost use Rattle.ld_term.specs.Tokens.{tokens_of, tokens_from};
ghost use Rattle.ld_term.specs.Grammar.{IsDefinitionText, IsDefinitionOf};
ghost use Rattle.ld_term.specs.TreeTexts.{written};
ghost use Rattle.ld_term.specs.Refusals.{IsSmall, IsRefused};
ghost use Rattle.ld_term.specs.declared.term_err.TermErr.{TermErr as Refusal};
ghost use Rattle.ld_term.specs.declared.term_err.TermErr.TheVariants.{Memory};

use crate::term_err::TermErr;
use crate::token::{Kind, next_piece};
use crate::tree::{Tree, read_from};
use std::alloc::Global;
use wb_base::Name;

/// A name and the term that it stands for.
#[derive(Debug, Drop)]
pub struct Definition {
    /// The name.
    pub name: Name,
    /// The place of its first byte in the line, counted from 1.
    pub place: usize,
    /// The term.
    pub term: Tree,
}

// The name, the equals sign and the term of a line.
fn read_parts(alloc: Global, line: &[u8]) -> Result<Definition, TermErr>
    ensures definition { IfOk result
        (λ d. IsDefinitionText (tokens_of (tokens_from false 0 line.now)) d.name d.place (written d.term)) }
    ensures small { IfOk result (λ d. IsSmall (written d.term)) }
    ensures refused { IfErr result
        (IsRefused IsDefinitionOf (tokens_from false 0 line.now) (length line.now)) }
{
    let end = line.len() as u64 + 1;
    let Some(first) = next_piece(line, 0, false) else {
        return Err(TermErr::Form { place: end });
    };
    let place = first.start + 1;
    let Kind::Name = first.kind else {
        return Err(TermErr::Form {
            place: place as u64,
        });
    };
    let Some(name) = Name::read(&line[first.start..first.end]) else {
        unreachable!();
    };
    let Some(second) = next_piece(line, first.end, false) else {
        return Err(TermErr::Form { place: end });
    };
    let Kind::Equals = second.kind else {
        return Err(TermErr::Form {
            place: second.start as u64 + 1,
        });
    };
    match read_from(alloc, line, second.end, false) {
        Ok(term) => Ok(Definition { name, place, term }),
        Err(error) => Err(error),
    }
}

/// The definition that a line is: a name, an equals sign and a term.
///
/// Spaces may stand between the tokens, and the term's outermost brackets may be left out.
pub fn read_definition(alloc: Global, line: &[u8]) -> Result<Definition, TermErr>
    ensures definition { IfOk result
        (λ d. IsDefinitionText (tokens_of (tokens_from false 0 line.now)) d.name d.place (written d.term)) }
    ensures small { IfOk result (λ d. IsSmall (written d.term)) }
    ensures refused { IfErr result
        (IsRefused IsDefinitionOf (tokens_from false 0 line.now) (length line.now)) }

    // The refusal that is due is given, unless memory runs out.
    ensures exact { (e : Refusal) → e ≢ Memory
        → IsRefused IsDefinitionOf (tokens_from false 0 line.now) (length line.now) e
        → IsErrOf result e ⊎ IsErrOf result Memory }
{
    read_parts(alloc, line)
}
