ghost use Rattle.std.specs.Prelude.{◌≡◌, ◌+◌, ◌≤◌, ◌++◌, ℕ, List, Err, OnOk};
ghost use Rattle.wb_base.specs.Streams.{Rose};
ghost use Rattle.wb_base.specs.declared.TheConstants.{MAX_WHOLE};
ghost use Rattle.line_file.specs.Pieces.{finished, StandsFor};
ghost use Rattle.line_file.specs.Sources.{Checks, EndsSource};
ghost use Rattle.line_file.specs.declared.source.SourceErr.TheVariants as SourceErr;

use crate::checker::Checker;
use crate::format::{FileErr, LineFormat};
use std::alloc::{AllocError, Global};
use thiserror::Error;
use wb_base::{Failed, Source};

// How many bytes one call asks for.
const CHUNK: usize = 4096;

/// Why what a source gives isn't accepted.
#[derive(Clone, Copy, Debug, PartialEq, Eq, Error)]
pub enum SourceErr<W> {
    /// Its first line, counted from 1, that is refused, and why.
    #[error("refused")]
    Refused { line: u64, why: W },
    /// More bytes came than may be read.
    #[error("the source has too many bytes")]
    TooLarge,
    /// The source met a fault.
    #[error("the source failed")]
    Fault,
    /// Memory ran out.
    #[error("out of memory")]
    Memory,
}

impl<W> From<Failed> for SourceErr<W> {
    ghost use Rattle.line_file.specs.declared.source.SourceErr.TheVariants.{Fault};

    ghost from_gives = { λ _ e. e ≡ Fault };

    fn from(_failed: Failed) -> SourceErr<W> {
        SourceErr::Fault
    }
}

impl<W> From<AllocError> for SourceErr<W> {
    ghost use Rattle.line_file.specs.declared.source.SourceErr.TheVariants.{Memory};

    ghost from_gives = { λ _ e. e ≡ Memory };

    fn from(_error: AllocError) -> SourceErr<W> {
        SourceErr::Memory
    }
}

// Feeds a piece; a refusal is told at the end.
fn feed_on<F: LineFormat>(checker: &mut Checker<F>, piece: &[u8]) -> Result<(), AllocError>
    ensures { OnOk result ((bytes : List ℕ) → StandsFor F.format checker.old bytes
        → StandsFor F.format checker.new (bytes ++ piece.now)) }
{
    match checker.feed(piece) {
        Err(FileErr::Memory) => Err(AllocError),
        Ok(()) | Err(FileErr::Refused { .. }) => Ok(()),
    }
}

// What the file claims whose bytes have come to their end, or its first refusal.
fn finish<F: LineFormat>(checker: Checker<F>) -> Result<F::Claim, SourceErr<F::Why>>
    ensures { EndsSource result (finished F.format checker) }
{
    match checker.finish() {
        Ok(claim) => Ok(claim),
        Err(FileErr::Refused { line, why }) => Err(SourceErr::Refused { line, why }),
        Err(FileErr::Memory) => Err(SourceErr::Memory),
    }
}

/// Checks all bytes of a source, of which there may be at most `limit`.
///
/// A refusal is answered behind the last byte, so that a source with too many bytes is answered `TooLarge`,
/// whatever its lines are: exactly `limit + 1` bytes were taken then. It makes at most `limit + 2` calls.
pub fn check_source<F: LineFormat, S: Source>(
    alloc: Global,
    source: &mut S,
    limit: usize,
) -> Result<F::Claim, SourceErr<F::Why>>
    requires { limit ≤ MAX_WHOLE }
    ensures checked { Checks F.format limit (S.left source.old) (S.left source.new) result }
    ensures fault { result ≡ Err SourceErr.Fault → Rose (S.faults source.old) (S.faults source.new) }
    ensures later { S.faults source.old ≤ S.faults source.new }
    ensures calls { S.calls source.new ≤ S.calls source.old + (limit + 2) }
{
    let mut checker = Checker::<F>::begin(alloc)?;
    let mut count = 0;
    while count <= limit {
        let mut chunk = [0; CHUNK];
        let room = CHUNK.min(limit + 1 - count);
        let piece = &mut chunk[..room];
        let n = source.take(piece)?;
        if n == 0 {
            return finish(checker);
        }
        feed_on(&mut checker, &piece[..n])?;
        count += n;
    }
    Err(SourceErr::TooLarge)
}
