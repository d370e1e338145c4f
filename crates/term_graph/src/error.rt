ghost use Rattle.std.specs.Prelude.{◌≡◌};
ghost use Rattle.term_graph.specs.declared.error.GraphErr.TheVariants.{Memory};

use std::alloc::AllocError;
use thiserror::Error;

/// Why a graph refuses a new product.
#[derive(Clone, Copy, Debug, PartialEq, Eq, Error)]
pub enum GraphErr {
    /// Its height would be above 1,000.
    #[error("a term of a height above 1000")]
    TooDeep,
    /// 100,000 products are there.
    #[error("a graph of more than 100000 products")]
    Full,
    /// Memory ran out.
    #[error("out of memory")]
    Memory,
}

impl From<AllocError> for GraphErr {
    ghost from_gives = { λ _ e. e ≡ Memory };

    fn from(_error: AllocError) -> GraphErr {
        GraphErr::Memory
    }
}

/// Why a name isn't defined.
#[derive(Clone, Copy, Debug, PartialEq, Eq, Error)]
pub enum NameErr {
    /// It is there.
    #[error("a name that is defined twice")]
    Twice,
    /// Memory ran out.
    #[error("out of memory")]
    Memory,
}
