ghost use Rattle.std.specs.Prelude.{◌≡◌, ◌++◌, map};
ghost use Rattle.std.specs.List.{flat_map};
ghost use Rattle.wb_base.specs.Lines.{line};
ghost use Rattle.wb_base.specs.Streams.{HasCause, Puts};
ghost use Rattle.session_run.specs.Replies.{line_of};
ghost use Rattle.session_run.specs.ReplyText.{progress_word, state_text, list_text, reply_text, CanPut};

use crate::reply::{JobLine, Reply};
use crate::session::Session;
use braid_word::Sign;
use handle_reduce::Progress;
use wb_base::{Failed, Name, Sink, give_all, put_line, put_numbered_line};

// Gives a text and a name as a line.
fn put_named<K: Sink>(sink: &mut K, text: &[u8], name: Name) -> Result<(), Failed>
    ensures took { Puts (K.taken sink.old) (K.taken sink.new) result (text.now ++ line name) }
    ensures cause { HasCause (K.faults sink.old) (K.faults sink.new) result }
{
    give_all(sink, text)?;
    put_line(sink, name.bytes())
}

// What is said of how a run stands, between spaces.
fn progress_word(progress: Progress) -> &'static [u8]
    ensures { result.now ≡ progress_word progress }
{
    match progress {
        Progress::Running => b" running ",
        Progress::Done(Sign::Empty) => b" equal ",
        Progress::Done(Sign::Positive(_)) => b" less ",
        Progress::Done(Sign::Negative(_)) => b" greater ",
        Progress::Done(Sign::Mixed(_)) => b"",
        Progress::HandlesMet => b" handles ",
        Progress::LengthMet => b" length ",
    }
}

// Gives the line of a state.
fn put_state<K: Sink>(sink: &mut K, job: JobLine) -> Result<(), Failed>
    ensures took { Puts (K.taken sink.old) (K.taken sink.new) result (state_text job) }
    ensures cause { HasCause (K.faults sink.old) (K.faults sink.new) result }
{
    give_all(sink, b"state ")?;
    give_all(sink, job.name.bytes())?;
    put_numbered_line(sink, progress_word(job.progress), u64::from(job.steps))
}

// Gives the lines of the states of all jobs.
fn put_states<K: Sink>(sink: &mut K, session: &Session) -> Result<(), Failed>
    ensures took { Puts (K.taken sink.old) (K.taken sink.new) result
        (flat_map state_text (map line_of session.now)) }
    ensures cause { HasCause (K.faults sink.old) (K.faults sink.new) result }
{
    for k in 0..session.job_count() {
        let Some(job) = session.job_at(k) else {
            unreachable!();
        };
        put_state(sink, job)?;
    }
    Ok(())
}

// Gives how many jobs are open, and the state of each.
fn put_list<K: Sink>(sink: &mut K, session: &Session) -> Result<(), Failed>
    ensures took { Puts (K.taken sink.old) (K.taken sink.new) result (list_text session.now) }
    ensures cause { HasCause (K.faults sink.old) (K.faults sink.new) result }
{
    put_numbered_line(sink, b"jobs ", session.job_count() as u64)?;
    put_states(sink, session)
}

/// Gives the lines of a reply of this session, which has done no command since.
///
/// After `Failed` the sink has taken a front of them. It takes no memory. The format is this project's.
pub fn put_reply<K: Sink>(sink: &mut K, session: &Session, reply: &Reply) -> Result<(), Failed>
    requires { CanPut session.now reply.now }
    ensures took { Puts (K.taken sink.old) (K.taken sink.new) result (reply_text session.now reply.now) }
    ensures cause { HasCause (K.faults sink.old) (K.faults sink.new) result }
{
    match *reply {
        Reply::Opened(name) => put_named(sink, b"opened ", name),
        Reply::State(job) => put_state(sink, job),
        Reply::Taken(name) => match session.find(name) {
            Some(job) => job.put(sink),
            None => unreachable!(),
        },
        Reply::Closed(name) => put_named(sink, b"closed ", name),
        Reply::List => put_list(sink, session),
        Reply::NoJob(name) => put_named(sink, b"no job ", name),
        Reply::Twice(name) => put_named(sink, b"twice ", name),
        Reply::Full => put_line(sink, b"full"),
        Reply::TooLong(letters) => put_numbered_line(sink, b"too long ", letters),
        Reply::Memory => unreachable!(),
    }
}
