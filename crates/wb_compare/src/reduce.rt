// The leftmost reduction of a quotient.
ghost use Rattle.std.specs.Prelude.{◌≡◌, ◌≤◌, List, ℕ, IfOk, Some};
ghost use Rattle.handle_reduce.specs.Runs.{RunState};
ghost use Rattle.handle_reduce.specs.declared.TheConstants.{MAX_BOUND};
ghost use Rattle.trace_format.specs.declared.verdict.Verdict.{Verdict as Decision};
ghost use Rattle.wb_compare.specs.Reductions.{run_answer};
ghost use Rattle.wb_compare.specs.Endings.{ended_answer};

use braid_word::Letter;
use handle_reduce::{Progress, Reducer};
use std::alloc::{AllocError, Global};
use trace_format::{Verdict, verdict_of};

/// How the reduction of a quotient has ended.
#[derive(Debug, Drop)]
pub(crate) enum Ended {
    /// It has this verdict.
    Decided { verdict: Verdict, reducer: Reducer },
    /// It met the limit on handles.
    HandlesMet,
    /// It met the limit on letters.
    LengthMet,
}

/// Reduces the quotient of two words, within these limits.
pub(crate) fn reduce(
    alloc: Global,
    left: &[Letter],
    right: &[Letter],
    handles: u32,
    limit: u32,
) -> Result<Ended, AllocError>
    requires handles { handles ≤ MAX_BOUND }
    requires limit { limit ≤ MAX_BOUND }
    ensures { IfOk result (λ ended. (text : RunState → Decision → List ℕ)
        → run_answer text handles limit left.now right.now ≡ Some (ended_answer text handles limit ended)) }
{
    if left.len() + right.len() > limit as usize {
        return Ok(Ended::LengthMet);
    }
    let mut reducer = Reducer::of_quotient(alloc, left, right, handles, limit)?;
    match reducer.turn(handles) {
        Progress::Done(sign) => match verdict_of(sign) {
            Some(verdict) => Ok(Ended::Decided { verdict, reducer }),
            None => unreachable!(),
        },
        Progress::HandlesMet => Ok(Ended::HandlesMet),
        Progress::LengthMet => Ok(Ended::LengthMet),
        Progress::Running => unreachable!(),
    }
}
