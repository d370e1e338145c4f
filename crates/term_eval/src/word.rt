ghost use Rattle.std.specs.Prelude.{◌≡◌, ◌↔◌, ℕ, ◌+◌, ◌<◌, ◌≤◌, ◌++◌, length, Err, IfOk, OnOk};
ghost use Rattle.braid_word.specs.Words.{IsOn};
ghost use Rattle.braid_word.specs.Equivalence.{Equivalent};
ghost use Rattle.braid_word.specs.declared.TheConstants.{MAX_INDEX, MAX_LETTERS};
ghost use Rattle.ld_term.specs.Terms.{Term, height, IsEquivalent};
ghost use Rattle.term_graph.specs.TermLists.{term_at, braid_length, capped};
ghost use Rattle.term_eval.specs.Braids.{braid, placed};
ghost use Rattle.term_eval.specs.declared.word.EvalErr.TheVariants.{TooLong, Index, Memory};

use braid_word::{Letter, MAX_INDEX, MAX_LETTERS, Word};
use std::alloc::{AllocError, Global};
use term_graph::{NodeId, TermGraph};
use thiserror::Error;

/// Why a term's braid word isn't given.
#[derive(Clone, Copy, Debug, PartialEq, Eq, Error)]
pub enum EvalErr {
    /// It has more letters than the limit.
    #[error("a braid word of {length} letters is too long")]
    TooLong {
        /// How many it has, or the greatest number of 64 bits where they are more than that.
        length: u64,
    },
    /// The term's height, which is the greatest index, is above 255, and the word isn't too long.
    #[error("an index is too high")]
    Index,
    /// Memory ran out.
    #[error("out of memory")]
    Memory,
}

impl From<AllocError> for EvalErr {
    ghost from_gives = { λ _ e. e ≡ Memory };

    fn from(_error: AllocError) -> EvalErr {
        EvalErr::Memory
    }
}

// Puts the word of a term at the end, shifted this many times, and inverted or not.
//
// The term is gone through as a tree. Each product that is met gives a letter, so it takes as many steps as
// there are letters; and no call is deeper than the term is high.
fn push_braid(
    letters: &mut Vec<Letter>,
    graph: &TermGraph,
    node: NodeId,
    shift: u16,
    inverted: bool,
) -> Result<(), AllocError>
    requires there { node < length graph.now }
    requires low { height (term_at graph.now node) + shift ≤ MAX_INDEX }
    ensures { OnOk result (letters.new.items ≡ letters.old.items ++ placed shift inverted
        (braid (term_at graph.now node))) }
{
    let Some((left, right)) = graph.children(node) else {
        return Ok(());
    };
    let next = shift + 1;
    if inverted {
        push_braid(letters, graph, left, next, false)?;
        letters.push(Letter::new(next, true))?;
        push_braid(letters, graph, right, next, true)?;
        push_braid(letters, graph, left, shift, true)
    } else {
        push_braid(letters, graph, left, shift, false)?;
        push_braid(letters, graph, right, next, false)?;
        letters.push(Letter::new(next, false))?;
        push_braid(letters, graph, left, next, true)
    }
}

/// The braid word of a term, which has at most `limit` letters.
///
/// Its length and its greatest index are tested on the graph's numbers, so a word that is refused isn't
/// begun.
/// After Dehornoy, Braid groups and left distributive operations.
pub fn eval(alloc: Global, graph: &TermGraph, node: NodeId, limit: u32) -> Result<Word, EvalErr>
    requires number { node < length graph.now }
    requires limit { limit ≤ MAX_LETTERS }
    ensures word { IfOk result (λ w. w ≡ braid (term_at graph.now node)) }
    ensures short { IfOk result (λ w. length w ≤ limit) }
    ensures low { IfOk result (λ w. IsOn (MAX_INDEX + 1) w) }
    ensures equivalent { IfOk result (λ w. (t : Term) → IsEquivalent t (term_at graph.now node)
        → Equivalent (braid t) w) }
    ensures too_long { (count : ℕ) → (result ≡ Err (TooLong count))
        ↔ ((limit < braid_length (term_at graph.now node))
        × (count ≡ capped (braid_length (term_at graph.now node)))) }
    ensures index { (result ≡ Err Index)
        ↔ ((braid_length (term_at graph.now node) ≤ limit) × (MAX_INDEX < height (term_at graph.now node))) }
{
    let length = graph.length(node);
    if length > u64::from(limit) {
        return Err(EvalErr::TooLong { length });
    }
    if graph.height(node) > u32::from(MAX_INDEX) {
        return Err(EvalErr::Index);
    }
    let mut letters = Vec::with_capacity(alloc, length as usize)?;
    push_braid(&mut letters, graph, node, 0, false)?;
    Ok(Word::of(letters))
}
