ghost use Rattle.std.specs.Prelude.{◌≡◌};
ghost use Rattle.term_graph.specs.declared.file_error.DefsErr.TheVariants.{Memory};

use std::alloc::AllocError;
use thiserror::Error;

/// Why a term file isn't read. Lines, and places in them, count from 1.
#[derive(Clone, Copy, Debug, PartialEq, Eq, Error)]
pub enum DefsErr {
    /// It has too few lines.
    #[error("line {line} is missing")]
    Lines {
        /// The first line that is missing.
        line: u64,
    },
    /// A line isn't a definition or a term.
    #[error("line {line} leaves the grammar at {place}")]
    Form {
        /// The line.
        line: u64,
        /// The first byte of the first token that may not stand there, or the place behind the line.
        place: u64,
    },
    /// A line's term is too high, its names counted as leaves.
    #[error("line {line} has a term of height {height}")]
    TooDeep {
        /// The line.
        line: u64,
        /// The height.
        height: u64,
    },
    /// A line has too many products.
    #[error("line {line} has {products} products")]
    TooMany {
        /// The line.
        line: u64,
        /// How many products it has.
        products: u64,
    },
    /// A name is defined again.
    #[error("line {line} defines a name again, at {place}")]
    Twice {
        /// The line.
        line: u64,
        /// The first byte of the name.
        place: u64,
    },
    /// A name isn't defined on an earlier line.
    #[error("line {line} has an unknown name at {place}")]
    Unknown {
        /// The line.
        line: u64,
        /// The first byte of the leftmost such name.
        place: u64,
    },
    /// No line has a fault, and a new product is too high.
    #[error("a product is too high")]
    Height,
    /// No line has a fault, and there are too many products.
    #[error("too many products")]
    Nodes,
    /// Memory ran out.
    #[error("out of memory")]
    Memory,
}

impl From<AllocError> for DefsErr {
    ghost from_gives = { λ _ e. e ≡ Memory };

    fn from(_error: AllocError) -> DefsErr {
        DefsErr::Memory
    }
}
