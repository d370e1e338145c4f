// Laws of the definitions of jobs. Each is the contract of a function that does nothing.
ghost use Rattle.std.specs.Prelude.{◌≡◌, ◌≤◌, ℕ, List, [], Some};
ghost use Rattle.session_run.specs.declared.command.Command.{Command};
ghost use Rattle.session_run.specs.Replies.{replies};
ghost use Rattle.session_run.specs.Jobs.{Job, find_job, more_turns, after_all};
ghost use Rattle.session_run.specs.OwnLines.{own_turns, own_lines, own_replies, ClosesNone, NoneFull};

/// Until it is closed, an open job goes on by the sum of the turns of its own name, whatever the other
/// commands are.
pub fn law_own_turns()
    ensures { (jobs : List Job) → (cs : List Command) → (j : Job) → find_job j.name jobs ≡ Some j
        → j.turns ≤ j.handles → ClosesNone j.name cs
        → find_job j.name (after_all jobs cs) ≡ Some (more_turns (own_turns j.name cs) j) }
{}

/// Where no opening finds as many jobs open as may be, the replies to the commands on one name are those of
/// these commands alone, and so is the job of the name: its words, its run, and thus the trace that is taken.
pub fn law_own_replies()
    ensures replies { (name : List ℕ) → (cs : List Command) → NoneFull [] cs
        → own_replies name [] cs ≡ replies [] (own_lines name cs) }
    ensures job { (name : List ℕ) → (cs : List Command) → NoneFull [] cs
        → find_job name (after_all [] (own_lines name cs)) ≡ find_job name (after_all [] cs) }
{}
