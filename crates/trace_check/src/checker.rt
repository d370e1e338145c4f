// A checker of trace files whose bytes come in pieces.
ghost use Rattle.std.specs.Prelude.{◌≡◌, ◌≤◌, ◌++◌, List, ℕ, [], Some, IfOk};
ghost use Rattle.line_file.specs.Pieces.{Held, held_of, fed, finished, length_held, Comes, StandsFor};
ghost use Rattle.line_file.specs.Keeping.{told, Ends};
ghost use Rattle.trace_check.specs.Checking.{trace_file, checked_of};
ghost use Rattle.trace_check.specs.declared.TheConstants.{MAX_LINE};
ghost use Rattle.trace_check.specs.declared.checked.Why.{Why as Cause};

use crate::MAX_LINE;
use crate::checked::{CheckErr, Checked};
use crate::reading::Reading;
use line_file::Checker as LineChecker;
use std::alloc::{AllocError, Global};
use std::marker::Model;

/// A check of a trace file whose bytes come in pieces: what they claim, or the first refusal, is that of all
/// of them, however they are cut. What it claims holds by `law_checked`.
#[derive(Drop)]
pub struct Checker {
    lines: LineChecker<Reading>,
}

impl Model for Checker {
    ghost use Rattle.line_file.specs.Pieces.{Held};
    ghost use Rattle.trace_check.specs.States.{State};
    ghost use Rattle.trace_check.specs.declared.checked.Why.{Why};

    ghost Value = { Held State Why };

    ghost view = { λ c. c.lines };
}

impl Checker {
    /// A checker that hasn't read any byte.
    pub fn begin(alloc: Global) -> Result<Checker, AllocError>
        ensures { IfOk result (λ c. StandsFor trace_file c []) }
    {
        Ok(Checker {
            lines: LineChecker::begin(alloc)?,
        })
    }

    /// Reads the next bytes. It answers the file's first refusal as soon as that is early: of a whole line,
    /// of more bytes than a line may have, or of a byte behind `end`. A refusal stays, whatever follows, and
    /// so does want of memory: each is answered again.
    pub fn feed(&mut self, piece: &[u8]) -> Result<(), CheckErr>
        // However the bytes come, what is held is what is held of all of them.
        ensures stands { (bytes : List ℕ) → StandsFor trace_file self.old bytes
            → Comes self.new (held_of trace_file (bytes ++ piece.now)) }
        ensures held { Comes self.new (fed trace_file self.old piece.now) }
        ensures told { result ≡ told self.new }
        ensures refused { (line : ℕ) → (why : Cause) → self.old ≡ Held.was_refused line why
            → self.new ≡ self.old }
        ensures out { self.old ≡ Held.ran_out → self.new ≡ Held.ran_out }
    {
        self.lines.feed(piece)
    }

    /// What the file claims that ends here, or its first refusal.
    pub fn finish(self) -> Result<Checked, CheckErr>
        ensures held { Ends result (finished trace_file self) }
        ensures file { (bytes : List ℕ) → StandsFor trace_file self bytes
            → Ends result (Some (checked_of bytes)) }
    {
        self.lines.finish()
    }

    /// How many bytes it holds of a line that isn't ended.
    pub fn held(&self) -> u32
        ensures value { result ≡ length_held self.now }
        ensures within { length_held self.now ≤ MAX_LINE }
    {
        self.lines.held() as u32
    }
}
