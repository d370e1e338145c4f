use handle_reduce::Progress;
use wb_base::Name;

/// What is said of the state of a job.
#[derive(Clone, Copy, Debug, PartialEq, Eq)]
pub struct JobLine {
    /// The name under which it is open.
    pub name: Name,
    /// How its run stands.
    pub progress: Progress,
    /// How many reductions its run has made.
    pub steps: u32,
}

/// What a session replies to a command.
#[derive(Clone, Copy, Debug, PartialEq, Eq)]
pub enum Reply {
    /// The job is open now.
    Opened(Name),
    /// The state of a job.
    State(JobLine),
    /// The trace file of this job is to be written. The job stays open.
    Taken(Name),
    /// The job is open no more.
    Closed(Name),
    /// All open jobs are to be written.
    List,
    /// No job of this name is open.
    NoJob(Name),
    /// A job of this name is open.
    Twice(Name),
    /// As many jobs are open as may be.
    Full,
    /// The quotient of the words has so many letters, which are too many.
    TooLong(u64),
    /// Memory ran out.
    Memory,
}
