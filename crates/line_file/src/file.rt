ghost use Rattle.line_file.specs.Formats.{checked_of};
ghost use Rattle.line_file.specs.Keeping.{Gives};

use crate::checker::Checker;
use crate::format::{FileErr, LineFormat};
use std::alloc::Global;

/// What a file claims, or its first refusal.
pub fn check_file<F: LineFormat>(alloc: Global, bytes: &[u8]) -> Result<F::Claim, FileErr<F::Why>>
    ensures { Gives result (checked_of F.format bytes.now) }
{
    let Ok(mut checker) = Checker::<F>::begin(alloc) else {
        return Err(FileErr::Memory);
    };
    checker.feed(bytes)?;
    checker.finish()
}
