ghost use Rattle.std.specs.Prelude.{◌≡◌};
ghost use Rattle.garside_form.specs.declared.error.NormalErr.TheVariants.{Memory};

use std::alloc::AllocError;
use thiserror::Error;

/// Why a word has no normal form here.
#[derive(Debug, Drop, Error)]
pub enum NormalErr {
    /// The letter at this place, counted from 1, is the first whose index is the number of strands or more.
    #[error("a letter of more strands at place {place}")]
    Strands { place: u64 },
    /// Memory ran out.
    #[error("out of memory")]
    Memory,
}

impl From<AllocError> for NormalErr {
    ghost from_gives = { λ _ e. e ≡ Memory };

    fn from(_error: AllocError) -> NormalErr {
        NormalErr::Memory
    }
}
