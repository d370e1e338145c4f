ghost use Rattle.std.specs.Prelude.{◌≡◌, ◌↔◌, ◌+◌, ◌≤◌, ℕ, Ok, Err, IfOk};
ghost use Rattle.wb_base.specs.Streams.{Rose};
ghost use Rattle.wb_base.specs.declared.TheConstants.{MAX_WHOLE};
ghost use Rattle.trace_format.specs.TraceText.{Trace};
ghost use Rattle.trace_check.specs.Accepted.{IsAccepted, claim_of, IsValid};
ghost use Rattle.line_file.specs.Keeping.{Gives};
ghost use Rattle.line_file.specs.Sources.{Checks};
ghost use Rattle.line_file.specs.declared.source.SourceErr.TheVariants as SourceErr;
ghost use Rattle.trace_check.specs.Checking.{trace_file, checked_of};
ghost use Rattle.trace_check.specs.FirstRefusal.{IsFirstRefusal, HasNoRefusal, IfRefused};
ghost use Rattle.trace_check.specs.declared.checked.Why.{Why as Cause};

use crate::checked::{CheckErr, Checked, Why};
use crate::reading::Reading;
use line_file::{SourceErr, check_file};
use std::alloc::Global;
use wb_base::Source;

/// Checks a trace file of any maker: replays its steps from the quotient of its two words, or of the braid
/// words of its two terms, to its witness.
///
/// It is accepted where it is the text of a trace whose steps lead there, over words of at most 100,000
/// letters, and whose witness has the sign of its verdict. Then the verdict holds, and no other does. Any
/// other file is refused, at the first line that can't stand there; lines count from 1. It takes memory for
/// the words and the terms of its lines, and once for the word that its steps change. The format is this
/// project's.
pub fn check(alloc: Global, bytes: &[u8]) -> Result<Checked, CheckErr>
    // What it claims is what the trace claims whose text the file is, which is accepted, and so is valid.
    ensures accepted { IfOk result
        (λ claim. (t : Trace) × IsAccepted bytes.now t × IsValid t × (claim ≡ claim_of t)) }

    // What is accepted isn't refused, unless memory runs out, and is the text of one trace alone.
    ensures only { (t : Trace) → IsAccepted bytes.now t → Gives result (Ok (claim_of t)) }
    ensures one { (s t : Trace) → IsAccepted bytes.now s → IsAccepted bytes.now t → s ≡ t }

    // A refusal is the file's first; that one is answered, unless memory runs out; and there is none exactly
    // where the file is the text of an accepted trace.
    ensures refused { IfRefused result (IsFirstRefusal bytes.now) }
    ensures first { (line : ℕ) (why : Cause) → IsFirstRefusal bytes.now line why
        → Gives result (Err (line, why)) }
    ensures unrefused { HasNoRefusal bytes.now ↔ ((t : Trace) × IsAccepted bytes.now t) }

    // What it claims, or its first refusal.
    ensures exact { Gives result (checked_of bytes.now) }
{
    check_file::<Reading>(alloc, bytes)
}

/// Checks all bytes of a source, of which there may be at most `limit`, as `check` does; what it claims holds
/// by `law_checked`.
///
/// A refusal is answered behind the last byte, so that a source with too many bytes is answered `TooLarge`,
/// whatever its lines are: exactly `limit + 1` bytes were taken then. It makes at most `limit + 2` calls.
pub fn check_source<S: Source>(
    alloc: Global,
    source: &mut S,
    limit: usize,
) -> Result<Checked, SourceErr<Why>>
    requires { limit ≤ MAX_WHOLE }
    ensures checked { Checks trace_file limit (S.left source.old) (S.left source.new) result }
    ensures fault { result ≡ Err SourceErr.Fault → Rose (S.faults source.old) (S.faults source.new) }
    ensures later { S.faults source.old ≤ S.faults source.new }
    ensures calls { S.calls source.new ≤ S.calls source.old + (limit + 2) }
{
    line_file::check_source::<Reading, S>(alloc, source, limit)
}
