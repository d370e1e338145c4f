ghost use Rattle.std.specs.Prelude.{◌≡◌, ◌≤◌, length, None, is_some, IfOk};
ghost use Rattle.line_file.specs.Formats.{Format};
ghost use Rattle.line_file.specs.Keeping.{Keeps};

use std::alloc::{AllocError, Global};
use thiserror::Error;

/// Why a line isn't kept.
#[derive(Debug, Drop)]
pub enum Stop<W> {
    /// It is refused for this cause.
    Refused(W),
    /// Memory ran out.
    Memory,
}

impl<W> From<AllocError> for Stop<W> {
    ghost use Rattle.line_file.specs.declared.format.Stop.TheVariants.{Memory};

    ghost from_gives = { λ _ stop. stop ≡ Memory };

    fn from(_error: AllocError) -> Stop<W> {
        Stop::Memory
    }
}

/// Why a file isn't accepted.
#[derive(Clone, Copy, Debug, PartialEq, Eq, Error)]
pub enum FileErr<W> {
    /// Its first line, counted from 1, that is refused, and why.
    #[error("refused")]
    Refused { line: u64, why: W },
    /// Memory ran out.
    #[error("out of memory")]
    Memory,
}

/// A format of files of lines. What may be due, with what was read before it, is of the type itself.
pub trait LineFormat: Drop {
    /// A cause of refusal.
    type Why: Copy;

    /// What a file claims.
    type Claim: Drop;

    /// What the format says of lines.
    ghost format: { Format Self Self.Why Self.Claim };

    /// What is due first.
    fn start(alloc: Global) -> Result<Self, AllocError>
        ensures { IfOk result (λ now. now ≡ format.start) };

    /// What is due after a line, which is given without its LF.
    fn keep(self, alloc: Global, line: &[u8]) -> Result<Self, Stop<Self::Why>>
        requires due { format.passed self ≡ None }
        requires short { length line.now ≤ format.most }
        ensures { Keeps result (format.kept self line.now) };

    /// Whether the last line was passed.
    fn is_passed(&self) -> bool
        ensures { result ≡ is_some (format.passed self.now) };

    /// What the file claims, where the last line was passed.
    fn claim(self) -> Option<Self::Claim>
        ensures { result ≡ format.passed self };

    /// The most bytes of a line, without its LF.
    fn most() -> u32
        ensures { result ≡ format.most };

    /// The cause of what stands behind the last line.
    fn extra() -> Self::Why
        ensures { result ≡ format.extra };

    /// The cause of a line that is too long.
    fn long() -> Self::Why
        ensures { result ≡ format.long };

    /// The cause of a file that ends too early.
    fn truncated() -> Self::Why
        ensures { result ≡ format.truncated };
}
