ghost use Rattle.std.specs.Prelude.{◌≡◌, ◌≢◌, ℕ, ◌+◌, ◌<◌, ◌≤◌, ◌++◌, ◌∷◌, [], List, length, slice_get, is_some, true, false, Some, None, OnOk, OnErr};
ghost use Rattle.std.specs.Option.{option_map, option_copied};
ghost use Rattle.braid_word.specs.Words.{quotient};
ghost use Rattle.braid_word.specs.declared.TheConstants.{MAX_LETTERS};
ghost use Rattle.handle_reduce.specs.declared.TheConstants.{MAX_BOUND};
ghost use Rattle.session_run.specs.declared.TheConstants.{MAX_JOBS};
ghost use Rattle.session_run.specs.CommandLines.{HasSmallNumbers};
ghost use Rattle.session_run.specs.Jobs.{find_job, turn_job, close_job, after, opening_of, opened, is_on, lives};
ghost use Rattle.session_run.specs.Jobs.{Job as Kept};
ghost use Rattle.session_run.specs.ReplyText.{CanPut};
ghost use Rattle.session_run.specs.Replies.{line_of, state_reply, turn_reply, take_reply, close_reply, opening_reply, reply_to, IsBegin};

use crate::MAX_JOBS;
use crate::command::Command;
use crate::job::Job;
use crate::reply::{JobLine, Reply};
use braid_word::{MAX_LETTERS, Word};
use handle_reduce::Progress;
use indexmap::IndexMap;
use slab::Slab;
use std::alloc::{AllocError, Global};
use std::marker::Model;
use wb_base::Name;

/// Runs of handle reduction that go on side by side, each under a name, in order of opening.
#[derive(Drop)]
pub struct Session {
    alloc: Global,
    jobs: Slab<Job>,
    keys: IndexMap<Name, usize>,
}

impl Model for Session {
    ghost use Rattle.std.specs.Prelude.{List};
    ghost use Rattle.session_run.specs.Jobs.{Job as Kept};
    ghost use Rattle.session_run.specs.Keeping.{jobs_of, IsKept};

    ghost Value = { List Kept };

    ghost view = { λ s. jobs_of s.jobs s.keys.entries };

    ghost invariant = { λ s. IsKept s.jobs s.keys.entries };
}

impl Session {
    /// A session without jobs.
    pub fn new(alloc: Global) -> Session
        ensures { result ≡ [] }
    {
        Session {
            alloc,
            jobs: Slab::new(alloc),
            keys: IndexMap::new(alloc),
        }
    }

    // The job of a name.
    pub(crate) fn find(&self, name: Name) -> Option<&Job>
        ensures { option_copied result ≡ find_job name self.now }
    {
        let key = self.keys.get(&name)?;
        self.jobs.get(*key)
    }

    // Whether a name is open.
    fn is_open(&self, name: Name) -> bool
        ensures { result ≡ is_some (find_job name self.now) }
    {
        self.find(name).is_some()
    }

    /// How many jobs are open.
    pub fn job_count(&self) -> usize
        ensures { result ≡ length self.now }
    {
        self.keys.len()
    }

    /// What is said of the state of the k-th job, counted from 0 in order of opening.
    pub fn job_at(&self, k: usize) -> Option<JobLine>
        ensures { result ≡ option_map line_of (slice_get self.now k) }
    {
        let (_, key) = self.keys.get_index(k)?;
        Some(self.jobs.get(*key)?.line())
    }

    // The state of a job.
    fn show(&self, name: Name) -> Reply
        ensures { result ≡ state_reply name (find_job name self.now) }
    {
        match self.find(name) {
            Some(job) => Reply::State(job.line()),
            None => Reply::NoJob(name),
        }
    }

    // The name of a job whose run is done, or else its state.
    fn take(&self, name: Name) -> Reply
        ensures { result ≡ take_reply name (find_job name self.now) }
    {
        let Some(job) = self.find(name) else {
            return Reply::NoJob(name);
        };
        let line = job.line();
        match line.progress {
            Progress::Done(_) => Reply::Taken(name),
            _ => Reply::State(line),
        }
    }

    // Turns a job.
    fn turn(&mut self, name: Name, count: u32) -> Reply
        ensures reply { result ≡ turn_reply name count (find_job name self.old) }
        ensures jobs { self.new ≡ turn_job name count self.old }
    {
        match self.keys.get(&name) {
            None => Reply::NoJob(name),
            Some(key) => {
                let job = &mut self.jobs[*key];
                job.turn(count);
                Reply::State(job.line())
            }
        }
    }

    // Closes a job.
    fn close(&mut self, name: Name) -> Reply
        ensures reply { result ≡ close_reply name (find_job name self.old) }
        ensures jobs { self.new ≡ close_job name self.old }
    {
        match self.keys.shift_remove(&name) {
            None => Reply::NoJob(name),
            Some(key) => {
                self.jobs.remove(key);
                Reply::Closed(name)
            }
        }
    }

    // Opens a job without turns, if there is memory for it.
    fn add(
        &mut self,
        name: Name,
        words: (Word, Word),
        handles: u32,
        limit: u32,
    ) -> Result<(), AllocError>
        requires closed { find_job name self.old ≡ None }
        requires short { length (quotient words.0 words.1) ≤ MAX_LETTERS }
        requires handles { handles ≤ MAX_BOUND }
        requires limit { limit ≤ MAX_BOUND }
        ensures ok { OnOk result
            (self.new ≡ self.old ++ record {
              name = name;
              left = words.0;
              right = words.1;
              handles = handles;
              limit = limit;
              turns = 0;
            } ∷ []) }
        ensures err { OnErr result (self.new ≡ self.old) }
    {
        self.keys.reserve(1)?;
        self.jobs.reserve(1)?;
        let job = Job::begin(self.alloc, name, words, handles, limit)?;
        let key = self.jobs.insert_reserved(job);
        let Ok(_) = self.keys.insert(name, key) else {
            unreachable!();
        };
        Ok(())
    }

    // Opens a job, unless its name is open, as many jobs are as may be, or its quotient is too long.
    fn begin(&mut self, name: Name, words: (Word, Word), handles: u32, limit: u32) -> Reply
        requires handles { handles ≤ MAX_BOUND }
        requires limit { limit ≤ MAX_BOUND }
        ensures reply { result ≢ Reply.Memory
            → result ≡ opening_reply (opening_of self.old name words.0 words.1) name words.0 words.1 }
        ensures jobs { result ≢ Reply.Memory
            → self.new ≡ opened (opening_of self.old name words.0 words.1)
            (record {
              name = name;
              left = words.0;
              right = words.1;
              handles = handles;
              limit = limit;
              turns = 0;
            }) self.old }
        ensures memory { result ≡ Reply.Memory → self.new ≡ self.old }
    {
        if self.is_open(name) {
            return Reply::Twice(name);
        }
        if self.job_count() >= MAX_JOBS {
            return Reply::Full;
        }
        let letters = words.0.letters().len() + words.1.letters().len();
        if letters > MAX_LETTERS {
            return Reply::TooLong(letters as u64);
        }
        match self.add(name, words, handles, limit) {
            Ok(()) => Reply::Opened(name),
            Err(_) => Reply::Memory,
        }
    }

    /// Does a command, and replies.
    ///
    /// A job is refused where its name is open, else where as many jobs are open as may be, else where its
    /// quotient is too long. Only `Begin` takes memory.
    pub fn command(&mut self, command: Command) -> Reply
        requires { HasSmallNumbers command }
        ensures reply { result ≢ Reply.Memory → result ≡ reply_to self.old command }
        ensures jobs { result ≢ Reply.Memory → self.new ≡ after self.old command }
        ensures memory { result ≡ Reply.Memory → IsBegin command × (self.new ≡ self.old) }

        // The reply can be written.
        ensures writable { result ≢ Reply.Memory → CanPut self.new result }

        // No other job changes, and the job of this name goes on as its own command says.
        ensures others { (name : List ℕ) → is_on name command ≡ false
            → find_job name self.new ≡ find_job name self.old }
        ensures own { (name : List ℕ) → (j : Kept) → find_job name self.old ≡ Some j
            → is_on name command ≡ true → find_job name self.new ≡ lives j command }
    {
        self.perform(command)
    }

    // Does a command, and replies.
    fn perform(&mut self, command: Command) -> Reply
        requires { HasSmallNumbers command }
        ensures reply { result ≢ Reply.Memory → result ≡ reply_to self.old command }
        ensures jobs { result ≢ Reply.Memory → self.new ≡ after self.old command }
        ensures memory { result ≡ Reply.Memory → IsBegin command × (self.new ≡ self.old) }
    {
        match command {
            Command::Begin {
                name,
                handles,
                length,
                left,
                right,
            } => self.begin(name, (left, right), handles, length),
            Command::Turn { name, count } => self.turn(name, count),
            Command::Show(name) => self.show(name),
            Command::Take(name) => self.take(name),
            Command::Close(name) => self.close(name),
            Command::List => Reply::List,
        }
    }
}
