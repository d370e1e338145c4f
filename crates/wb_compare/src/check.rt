// The command `check`.
ghost use Rattle.std.specs.Prelude.{◌≡◌, ◌++◌, codes};
ghost use Rattle.trace_format.specs.TraceText.{verdict_word};
ghost use Rattle.wb_compare.specs.Check.{check_meaning, judged_answer, why_word};

use line_file::SourceErr;
use std::alloc::Global;
use trace_check::{Why, check_source};
use trace_format::Verdict;
use wb_base::{Failed, Sink, Source, Status, put_line};
use wb_command::{Comes, MAX_INPUT, Refusal, Stop, Streamed, Written, put_refused};

/// `check`: tells whether a trace file is accepted.
#[derive(Clone, Copy, Debug, PartialEq, Eq)]
pub struct Check;

/// What a trace file was found to be.
#[derive(Clone, Copy, Debug, PartialEq, Eq)]
pub enum Judged {
    /// It is accepted, and has this verdict.
    Accepted(Verdict),
    /// It is refused at this line, counted from 1, for this cause.
    Refused(u64, Why),
}

// A cause of refusal, as it is written.
fn why_text(why: Why) -> &'static [u8]
    ensures { result.now ≡ why_word why }
{
    match why {
        Why::Form => b"form",
        Why::Header => b"header",
        Why::Step => b"step",
        Why::Long => b"long",
        Why::Witness => b"witness",
        Why::Sign => b"sign",
        Why::Truncated => b"truncated",
        Why::Extra => b"extra",
    }
}

// The line of an accepted file, without its LF.
fn accepted_line(verdict: Verdict) -> &'static [u8]
    ensures { result.now ≡ codes "accepted " ++ verdict_word verdict }
{
    match verdict {
        Verdict::Less => b"accepted less",
        Verdict::Equal => b"accepted equal",
        Verdict::Greater => b"accepted greater",
    }
}

impl Written for Judged {
    ghost answer = { judged_answer };

    fn status(&self) -> Status {
        match self {
            Judged::Accepted(_) => Status::Done,
            Judged::Refused(..) => Status::Refused,
        }
    }

    fn put<K: Sink>(&self, sink: &mut K) -> Result<(), Failed> {
        match self {
            Judged::Accepted(verdict) => put_line(sink, accepted_line(*verdict)),
            Judged::Refused(line, why) => put_refused(sink, *line, why_text(*why)),
        }
    }
}

impl Streamed for Check {
    type Done = Judged;

    ghost meaning = { λ command. check_meaning };

    fn law_streamed(&self) {}

    fn perform<S: Source>(&self, alloc: Global, source: &mut S) -> Result<Comes<Judged>, Stop> {
        match check_source(alloc, source, MAX_INPUT) {
            Ok(checked) => Ok(Comes::Done(Judged::Accepted(checked.verdict()))),
            Err(SourceErr::Refused { line, why }) => Ok(Comes::Done(Judged::Refused(line, why))),
            Err(SourceErr::TooLarge) => Ok(Comes::Stopped(Refusal::InputMet)),
            Err(SourceErr::Fault) => Err(Stop::ReadFault),
            Err(SourceErr::Memory) => Err(Stop::Memory),
        }
    }
}
