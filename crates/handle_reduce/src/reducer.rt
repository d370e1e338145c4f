ghost use Rattle.std.specs.Prelude.{◌≡◌, ◌≢◌, ℕ, ◌+◌, ◌≤◌, ◌<◌, List, [], ◌++◌, length, slice_get, Some, None, IfOk, IfNone, IsTrue, ◌↔◌};
ghost use Rattle.braid_word.specs.Words.{Letter as Signed, IsOn, quotient};
ghost use Rattle.braid_word.specs.Equivalence.{EquivalentOn};
ghost use Rattle.braid_word.specs.declared.TheConstants.{MAX_LETTERS};
ghost use Rattle.handle_find.specs.Handles.{leftmost_of};
ghost use Rattle.handle_find.specs.Scans.{whole, places};
ghost use Rattle.handle_reduce.specs.declared.TheConstants.{MAX_BOUND};
ghost use Rattle.handle_reduce.specs.Runs.{IsRunAfter, judged, turned};

use crate::progress::Progress;
use crate::seek::{letter_at, settle};
use braid_word::{Account, Letter, Word};
use handle_find::Scan;
use std::alloc::{AllocError, Global};
use std::marker::Model;

/// A run of handle reductions, advanced by turns.
///
/// Each turn reduces the leftmost handle of the present word, after Dehornoy's handle reduction. The run
/// ends at a word without a handle, or at one of its limits.
#[derive(Debug, Drop)]
pub struct Reducer {
    // The present word. While the run goes on the first letter to the right of the cursor ends the leftmost
    // handle, and that begins at `start`.
    scan: Scan,
    start: usize,
    steps: Vec<(u32, u32)>,
    handles: u32,
    limit: u32,
    progress: Progress,
}

impl Model for Reducer {
    ghost use Rattle.std.specs.Prelude.{vec_capacity};
    ghost use Rattle.handle_find.specs.Scans.{whole, places};
    ghost use Rattle.handle_reduce.specs.Runs.{LimitedRun};
    ghost use Rattle.handle_reduce.specs.Rooms.{Keeps};

    ghost Value = { LimitedRun };

    ghost view = { λ r. record {
      handles = r.handles;
      limit = r.limit;
      run = record { progress = r.progress; steps = r.steps.items; present = whole r.scan };
    } };

    ghost invariant = { λ r.
        Keeps r.progress r.scan.left r.scan.right r.steps.items r.start r.handles r.limit
        (places r.scan) (vec_capacity r.steps) };
}

// The step that reduces a handle, with its places counted from 1.
fn step_at(start: usize, end: usize) -> (u32, u32)
    requires { (start < end) × (end < MAX_LETTERS) }
    ensures { result ≡ (start + 1, end + 1) }
{
    (start as u32 + 1, end as u32 + 1)
}

impl Reducer {
    /// The run of a word with these limits, on reductions and on the letters of its words, before its
    /// first turn.
    ///
    /// It takes the memory of the whole run.
    pub fn begin(alloc: Global, word: Word, handles: u32, limit: u32) -> Result<Reducer, AllocError>
        requires word { length word ≤ MAX_LETTERS }
        requires handles { handles ≤ MAX_BOUND }
        requires limit { limit ≤ MAX_BOUND }
        ensures { IfOk result (λ r. IsRunAfter word handles limit 0 r) }
    {
        Reducer::of_quotient(alloc, &[], word.letters(), handles, limit)
    }

    /// The run of u^-1 v with these limits, before its first turn. The quotient is made in its place, and in
    /// no word before.
    ///
    /// It takes the memory of the whole run.
    pub fn of_quotient(
        alloc: Global,
        u: &[Letter],
        v: &[Letter],
        handles: u32,
        limit: u32,
    ) -> Result<Reducer, AllocError>
        requires words { length u.now + length v.now ≤ MAX_LETTERS }
        requires handles { handles ≤ MAX_BOUND }
        requires limit { limit ≤ MAX_BOUND }
        ensures { IfOk result (λ r. IsRunAfter (quotient u.now v.now) handles limit 0 r) }
    {
        let len = u.len() + v.len();
        let room = len.max(limit as usize) + 1;
        let mut scan = Scan::of_quotient(alloc, u, v, room)?;
        if len > limit as usize {
            return Ok(Reducer {
                scan,
                start: 0,
                steps: Vec::new(alloc),
                handles,
                limit,
                progress: Progress::LengthMet,
            });
        }
        let steps = Vec::with_capacity(alloc, handles as usize)?;
        let (start, progress) = settle(&mut scan, 0, handles);
        Ok(Reducer {
            scan,
            start,
            steps,
            handles,
            limit,
            progress,
        })
    }

    /// How the run stands after this many turns more.
    ///
    /// A run that has ended stays as it is. No turn takes memory.
    pub fn turn(&mut self, at_most: u32) -> Progress
        ensures turned { self.new ≡ turned self.old at_most }
        ensures run { (w : List Signed) → (handles limit t : ℕ) → IsRunAfter w handles limit t self.old
            → IsRunAfter w handles limit (t + at_most) self.new }

        // The present word represents the same braid as the first one, on as few strands.
        ensures equivalent { (w : List Signed) → (handles limit t n : ℕ)
            → IsRunAfter w handles limit t self.old
            → IsOn n w → EquivalentOn n w self.new.run.present }
        ensures ended { self.old.run.progress ≢ Progress.Running → self.new ≡ self.old }
        ensures progress { result ≡ self.new.run.progress }
    {
        for _ in 0..at_most {
            if !self.is_running() {
                return self.progress;
            }
            self.step();
        }
        self.progress
    }

    /// How the run stands.
    pub fn progress(&self) -> Progress
        ensures { result ≡ self.now.run.progress }
    {
        self.progress
    }

    // Whether a further turn changes the run.
    fn is_running(&self) -> bool
        ensures { IsTrue result ↔ (self.now.run.progress ≡ Progress.Running) }
    {
        matches!(self.progress, Progress::Running)
    }

    // One more turn of a run that goes on.
    fn step(&mut self)
        requires { self.old.run.progress ≡ Progress.Running }
        ensures { self.new ≡ turned self.old 1 }
    {
        let end = self.scan.left_len();
        if !self.scan.reduce(self.start, self.limit as usize) {
            self.progress = Progress::LengthMet;
            return;
        }
        let Ok(()) = self.steps.push(step_at(self.start, end)) else {
            unreachable!();
        };
        let (start, progress) = settle(&mut self.scan, self.steps.len() as u32, self.handles);
        self.start = start;
        self.progress = progress;
    }
}

impl Account for Reducer {
    ghost steps = { λ r. r.run.steps };

    ghost current = { λ r. r.run.present };

    fn steps_done(&self) -> u32 {
        self.steps.len() as u32
    }

    fn step_at(&self, k: u32) -> (u32, u32) {
        self.steps[k as usize]
    }

    fn current_len(&self) -> u32 {
        (self.scan.left_len() + self.scan.right_len()) as u32
    }

    fn current_at(&self, k: u32) -> Letter {
        letter_at(&self.scan, k as usize)
    }
}
