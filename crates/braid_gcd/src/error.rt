ghost use Rattle.std.specs.Prelude.{◌≡◌};
ghost use Rattle.braid_gcd.specs.declared.error.GcdErr.TheVariants.{Memory};

use std::alloc::AllocError;
use thiserror::Error;

/// Why two words have no answer. `second` is false where the first word has the fault.
#[derive(Clone, Copy, Debug, PartialEq, Eq, Error)]
pub enum GcdErr {
    /// The letter at this place, counted from 1, is the first whose index is the number of strands or more.
    #[error("the letter at place {place} has too great an index")]
    Strands { second: bool, place: u32 },
    /// The letter at this place, counted from 1, is the first inverse one.
    #[error("the letter at place {place} is an inverse one")]
    Negative { second: bool, place: u32 },
    /// The word has so many letters, which are more than 2,000.
    #[error("{count} letters are too many")]
    TooLong { second: bool, count: u32 },
    /// Memory ran out.
    #[error("out of memory")]
    Memory,
}

impl From<AllocError> for GcdErr {
    ghost from_gives = { λ _ e. e ≡ Memory };

    fn from(_error: AllocError) -> GcdErr {
        GcdErr::Memory
    }
}
