ghost use Rattle.std.specs.Prelude.{◌≡◌};
ghost use Rattle.term_expand.specs.Outcomes.{failure_of};

use term_graph::GraphErr;
use thiserror::Error;

/// Why a term isn't expanded.
#[derive(Clone, Copy, Debug, PartialEq, Eq, Error)]
pub enum ExpandErr {
    /// The address leads below a leaf.
    #[error("no such place")]
    NoPlace,
    /// The part at the address is x or t*x.
    #[error("nothing to expand")]
    NotExpandable,
    /// A product would have a height above 1,000.
    #[error("a term of a height above 1000")]
    TooDeep,
    /// The graph has 100,000 products.
    #[error("a graph of more than 100000 products")]
    Full,
    /// Memory ran out.
    #[error("out of memory")]
    Memory,
}

impl From<GraphErr> for ExpandErr {
    ghost from_gives = { λ error failure. failure ≡ failure_of error };

    fn from(error: GraphErr) -> ExpandErr {
        match error {
            GraphErr::TooDeep => ExpandErr::TooDeep,
            GraphErr::Full => ExpandErr::Full,
            GraphErr::Memory => ExpandErr::Memory,
        }
    }
}
