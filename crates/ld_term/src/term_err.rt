ghost use Rattle.std.specs.Prelude.{◌≡◌};
ghost use Rattle.ld_term.specs.declared.term_err.TermErr.TheVariants.{Memory};

use std::alloc::AllocError;
use thiserror::Error;

/// Why a line isn't read as a term.
#[derive(Clone, Copy, Debug, PartialEq, Eq, Error)]
pub enum TermErr {
    /// It isn't in the grammar: no line of it begins with the tokens up to the one at this place, counted
    /// from 1, or the line ends too early, and the place is behind its end.
    #[error("not a term at {place}")]
    Form {
        /// The place of a byte in the line, counted from 1.
        place: u64,
    },
    /// Its height is above 1,000.
    #[error("a term of height {height}")]
    TooDeep {
        /// The height.
        height: u64,
    },
    /// It has more than 100,000 products.
    #[error("a term of {products} products")]
    TooMany {
        /// How many products it has.
        products: u64,
    },
    /// Memory ran out.
    #[error("out of memory")]
    Memory,
}

impl From<AllocError> for TermErr {
    ghost from_gives = { λ _ e. e ≡ Memory };

    fn from(_error: AllocError) -> TermErr {
        TermErr::Memory
    }
}
