ghost use Rattle.std.specs.Prelude.{◌≡◌, ◌+◌, ◌≤◌, IfOk, IfErr, length};
ghost use Rattle.wb_base.specs.Streams.{ReadsAll, Rose};
ghost use Rattle.wb_base.specs.declared.TheConstants.{MAX_WHOLE};
ghost use Rattle.wb_base.specs.Reading.{Refuses};
ghost use Rattle.wb_base.specs.declared.whole.ReadErr.TheVariants.{Fault, Memory};

use crate::stream::{Failed, Source};
use std::alloc::{AllocError, Global};
use thiserror::Error;

// How many bytes one call asks for.
const CHUNK: usize = 8192;

/// Why a source wasn't read whole.
#[derive(Debug, Drop, Error)]
pub enum ReadErr {
    /// The source met a fault.
    #[error("the source failed")]
    Fault,
    /// More bytes came than may be read.
    #[error("the source has too many bytes")]
    TooLarge,
    /// Memory ran out.
    #[error("out of memory")]
    Memory,
}

impl From<Failed> for ReadErr {
    ghost from_gives = { λ _ e. e ≡ Fault };

    fn from(_failed: Failed) -> ReadErr {
        ReadErr::Fault
    }
}

impl From<AllocError> for ReadErr {
    ghost from_gives = { λ _ e. e ≡ Memory };

    fn from(_error: AllocError) -> ReadErr {
        ReadErr::Memory
    }
}

/// All bytes of a source up to its end, of which there may be at most `limit`.
///
/// At `TooLarge` exactly `limit + 1` bytes were taken from the source, at `Fault` at most `limit`, at
/// `Memory` at most `limit + 1`. It makes at most `limit + 2` calls.
pub fn read_all<S: Source>(alloc: Global, source: &mut S, limit: usize) -> Result<Vec<u8>, ReadErr>
    requires { limit ≤ MAX_WHOLE }
    ensures all { IfOk result (λ bytes. ReadsAll (S.left source.old) (S.left source.new) bytes.items) }
    ensures within { IfOk result (λ bytes. length bytes.items ≤ limit) }
    ensures refused { IfErr result (λ e. Refuses limit (S.left source.old) (S.left source.new) e) }
    ensures fault { result ≡ Err ReadErr.Fault → Rose (S.faults source.old) (S.faults source.new) }
    ensures later { S.faults source.old ≤ S.faults source.new }
    ensures calls { S.calls source.new ≤ S.calls source.old + (limit + 2) }
{
    let mut bytes = Vec::new(alloc);
    let mut chunk = [0; CHUNK];
    while bytes.len() <= limit {
        let room = CHUNK.min(limit + 1 - bytes.len());
        let piece = &mut chunk[..room];
        let n = source.take(piece)?;
        if n == 0 {
            return Ok(bytes);
        }
        bytes.extend_from_slice(&piece[..n])?;
    }
    Err(ReadErr::TooLarge)
}
