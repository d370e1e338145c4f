ghost use Rattle.std.specs.Prelude.{◌≡◌, ◌≤◌, IfOk, length};
ghost use Rattle.braid_word.specs.Words.{quotient};
ghost use Rattle.braid_word.specs.declared.TheConstants.{MAX_LETTERS};
ghost use Rattle.handle_reduce.specs.declared.TheConstants.{MAX_BOUND};
ghost use Rattle.session_run.specs.Jobs.{more_turns};
ghost use Rattle.session_run.specs.Replies.{line_of};
ghost use Rattle.session_run.specs.ReplyText.{job_trace, verdict_at};
ghost use Rattle.wb_base.specs.Streams.{HasCause, Puts};

use crate::reply::JobLine;
use braid_word::{Account, Sign, Word};
use handle_reduce::{Progress, Reducer};
use std::alloc::{AllocError, Global};
use std::marker::Model;
use trace_format::{Verdict, put_trace};
use wb_base::{Failed, Name, Sink};

// A job: what it was opened with, and its run.
#[derive(Debug, Drop)]
pub(crate) struct Job {
    name: Name,
    left: Word,
    right: Word,
    handles: u32,
    limit: u32,
    turns: u32,
    reducer: Reducer,
}

impl Model for Job {
    ghost use Rattle.session_run.specs.Jobs.{Job as Kept};
    ghost use Rattle.session_run.specs.Keeping.{Works};

    ghost Value = { Kept };

    ghost view = { λ s. record {
      name = s.name;
      left = s.left;
      right = s.right;
      handles = s.handles;
      limit = s.limit;
      turns = s.turns;
    } };

    ghost invariant = { λ s. Works
        (record {
          name = s.name;
          left = s.left;
          right = s.right;
          handles = s.handles;
          limit = s.limit;
          turns = s.turns;
        }) s.reducer };
}

impl Job {
    // A job without turns.
    pub(crate) fn begin(
        alloc: Global,
        name: Name,
        words: (Word, Word),
        handles: u32,
        limit: u32,
    ) -> Result<Job, AllocError>
        requires short { length (quotient words.0 words.1) ≤ MAX_LETTERS }
        requires handles { handles ≤ MAX_BOUND }
        requires limit { limit ≤ MAX_BOUND }
        ensures { IfOk result
            (λ j. j ≡ record {
              name = name;
              left = words.0;
              right = words.1;
              handles = handles;
              limit = limit;
              turns = 0;
            }) }
    {
        let (left, right) = words;
        let reducer = Reducer::of_quotient(alloc, left.letters(), right.letters(), handles, limit)?;
        Ok(Job {
            name,
            left,
            right,
            handles,
            limit,
            turns: 0,
            reducer,
        })
    }

    // Turns it. A sum of turns past its limit of reductions is cut there.
    pub(crate) fn turn(&mut self, count: u32)
        ensures { self.new ≡ more_turns count self.old }
    {
        self.reducer.turn(count);
        self.turns = self.handles.min(self.turns.saturating_add(count));
    }

    // What is said of its state.
    pub(crate) fn line(&self) -> JobLine
        ensures { result ≡ line_of self.now }
    {
        JobLine {
            name: self.name,
            progress: self.reducer.progress(),
            steps: self.reducer.steps_done(),
        }
    }

    // Gives its trace file.
    pub(crate) fn put<K: Sink>(&self, sink: &mut K) -> Result<(), Failed>
        ensures took { Puts (K.taken sink.old) (K.taken sink.new) result (job_trace self.now) }
        ensures cause { HasCause (K.faults sink.old) (K.faults sink.new) result }
    {
        let verdict = verdict_at(self.reducer.progress());
        put_trace(
            sink,
            self.left.letters(),
            self.right.letters(),
            &self.reducer,
            verdict,
        )
    }
}

// The verdict of a run that is done.
fn verdict_at(progress: Progress) -> Verdict
    ensures { result ≡ verdict_at progress }
{
    match progress {
        Progress::Done(Sign::Positive(_)) => Verdict::Less,
        Progress::Done(Sign::Negative(_)) => Verdict::Greater,
        _ => Verdict::Equal,
    }
}
