// What the first pass over a line keeps: heights in place of terms.

ghost use Rattle.std.specs.Prelude.{◌≡◌, ℕ, Bool, List, IfOk};
ghost use Rattle.ld_term.specs.Tokens.{open_bracket, close_bracket, star, variable, name};
ghost use Rattle.ld_term.specs.Automaton.{State, start, finish};
ghost use Rattle.ld_term.specs.Reads.{Holds, Steps};
ghost use Rattle.ld_term.specs.Held.{token_from, left_height};

use crate::levels::Levels;
use crate::token::Kind;
use std::alloc::{AllocError, Global};

/// The height of the last atom where none is to come, that of the innermost level's left part where its star
/// was read, and those of the outer levels' left parts, the line first.
#[derive(Debug, Drop)]
pub(crate) struct Reader {
    held: Option<u64>,
    left: Option<u64>,
    outer: Levels,
}

impl Reader {
    /// Nothing was read.
    pub(crate) fn new(alloc: Global) -> Reader
        ensures { Holds result start }
    {
        Reader {
            held: None,
            left: None,
            outer: Levels::new(alloc),
        }
    }

    // A bracket opens a level.
    fn open(&mut self) -> Result<bool, AllocError>
        ensures { IfOk result (λ moved. (strict : Bool) → Steps strict open_bracket moved self.old self.new) }
    {
        let None = self.held else {
            return Ok(false);
        };
        self.outer.push(self.left)?;
        self.left = None;
        Ok(true)
    }

    // The variable or a name is an atom.
    fn leaf(&mut self) -> bool
        ensures variable { (strict : Bool) → Steps strict variable result self.old self.new }
        ensures name { (strict : Bool) → (bytes : List ℕ) → (place : ℕ)
            → Steps strict (name bytes place) result self.old self.new }
    {
        let None = self.held else {
            return false;
        };
        self.held = Some(0);
        true
    }

    // A star stands behind a left part.
    fn star(&mut self, strict: bool) -> bool
        ensures { Steps strict star result self.old self.new }
    {
        let None = self.left else {
            return false;
        };
        let Some(height) = self.held else {
            return false;
        };
        if strict && self.outer.is_empty() {
            return false;
        }
        self.left = Some(height);
        self.held = None;
        true
    }

    // A bracket closes a level that has both its parts.
    fn close(&mut self) -> bool
        ensures { (strict : Bool) → Steps strict close_bracket result self.old self.new }
    {
        let Some(height) = self.held else {
            return false;
        };
        let Some(left) = self.left else {
            return false;
        };
        let Some(outer) = self.outer.pop() else {
            return false;
        };
        self.held = Some(left.max(height).saturating_add(1));
        self.left = outer;
        true
    }

    /// Reads the next token, where it may stand here, and says whether it may.
    pub(crate) fn take(&mut self, kind: Kind, strict: bool) -> Result<bool, AllocError>
        ensures { IfOk result
            (λ moved. (bytes : List ℕ) → (place : ℕ)
            → Steps strict (token_from kind bytes place) moved self.old self.new) }
    {
        match kind {
            Kind::Open => self.open(),
            Kind::Variable | Kind::Name => Ok(self.leaf()),
            Kind::Star => Ok(self.star(strict)),
            Kind::Close => Ok(self.close()),
            Kind::Equals | Kind::Bad => Ok(false),
        }
    }

    /// The height of the term, where the line may end here.
    pub(crate) fn height(&self) -> Option<u64>
        ensures { (s : State) → Holds self.now s → result ≡ left_height (finish s) }
    {
        if !self.outer.is_empty() {
            return None;
        }
        let height = self.held?;
        match self.left {
            Some(left) => Some(left.max(height).saturating_add(1)),
            None => Some(height),
        }
    }
}
