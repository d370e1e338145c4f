// The left parts' heights of the levels that are open: a byte for each level, and eight more for each whose
// left part was read. So a line of brackets alone costs no more memory than its bytes.

ghost use Rattle.std.specs.Prelude.{◌≡◌, ◌++◌, ◌∷◌, [], OnOk, IsTrue, MatchOption, ◌↔◌};

use std::alloc::{AllocError, Global};
use std::marker::Model;

/// A stack of heights, of which some aren't there.
#[derive(Debug, Drop)]
pub(crate) struct Levels {
    known: Vec<bool>,
    heights: Vec<u64>,
}

impl Model for Levels {
    ghost use Rattle.std.specs.Prelude.{ℕ, List, Option, ◌≡◌, length};
    ghost use Rattle.ld_term.specs.Levels.{levels_of, how_many};

    ghost Value = { List (Option ℕ) };

    ghost view = { λ s. levels_of s.known.items s.heights.items };

    ghost invariant = { λ s. length s.heights.items ≡ how_many s.known.items };
}

impl Levels {
    /// No level is open.
    pub(crate) fn new(alloc: Global) -> Levels
        ensures { result ≡ [] }
    {
        Levels {
            known: Vec::new(alloc),
            heights: Vec::new(alloc),
        }
    }

    /// Whether no level is open.
    pub(crate) fn is_empty(&self) -> bool
        ensures { IsTrue result ↔ (self.now ≡ []) }
    {
        self.known.is_empty()
    }

    /// Puts a level on top.
    pub(crate) fn push(&mut self, height: Option<u64>) -> Result<(), AllocError>
        ensures { OnOk result (self.new ≡ self.old ++ height ∷ []) }
    {
        match height {
            None => {
                self.known.push(false)?;
                Ok(())
            }
            Some(height) => {
                self.known.reserve(1)?;
                self.heights.push(height)?;
                let Ok(()) = self.known.push(true) else {
                    unreachable!();
                };
                Ok(())
            }
        }
    }

    /// Takes the topmost level off. `None` exactly where there is none.
    pub(crate) fn pop(&mut self) -> Option<Option<u64>>
        ensures { MatchOption result ((self.old ≡ []) × (self.new ≡ []))
            (λ height. self.old ≡ self.new ++ height ∷ []) }
    {
        if !self.known.pop()? {
            return Some(None);
        }
        match self.heights.pop() {
            Some(height) => Some(Some(height)),
            None => unreachable!(),
        }
    }
}
