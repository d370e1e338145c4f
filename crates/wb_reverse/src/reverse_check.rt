// The command `reverse-check`.
ghost use Rattle.std.specs.Prelude.{◌≡◌};
ghost use Rattle.wb_reverse.specs.ReverseCheck.{judged_answer, reverse_check_meaning, why_word};

use line_file::{SourceErr, check_source};
use std::alloc::Global;
use wb_base::{Failed, Sink, Source, Status, put_line};
use wb_command::{Comes, MAX_INPUT, Refusal, Stop, Streamed, Written, put_refused};
use word_reverse::{Fraction, ReverseFile, ReverseWhy};

/// `reverse-check`: tells whether a reverse file is accepted.
#[derive(Clone, Copy, Debug, PartialEq, Eq)]
pub struct ReverseCheck;

/// What a reverse file was found to be.
#[derive(Debug, Drop)]
pub enum Judged {
    /// It is accepted, and claims this.
    Accepted(Fraction),
    /// It is refused at this line, counted from 1, for this cause.
    Refused(u64, ReverseWhy),
}

// A cause of refusal, as it is written.
fn why_text(why: ReverseWhy) -> &'static [u8]
    ensures { result.now ≡ why_word why }
{
    match why {
        ReverseWhy::Form => b"form",
        ReverseWhy::Header => b"header",
        ReverseWhy::Step => b"step",
        ReverseWhy::Long => b"long",
        ReverseWhy::Fraction => b"fraction",
        ReverseWhy::Truncated => b"truncated",
        ReverseWhy::Extra => b"extra",
    }
}

impl Written for Judged {
    ghost answer = { judged_answer };

    fn status(&self) -> Status {
        match self {
            Judged::Accepted(_) => Status::Done,
            Judged::Refused(..) => Status::Refused,
        }
    }

    fn put<K: Sink>(&self, sink: &mut K) -> Result<(), Failed> {
        match self {
            Judged::Accepted(_) => put_line(sink, b"accepted"),
            Judged::Refused(line, why) => put_refused(sink, *line, why_text(*why)),
        }
    }
}

impl Streamed for ReverseCheck {
    type Done = Judged;

    ghost meaning = { λ command. reverse_check_meaning };

    fn law_streamed(&self) {}

    fn perform<S: Source>(&self, alloc: Global, source: &mut S) -> Result<Comes<Judged>, Stop> {
        match check_source::<ReverseFile, S>(alloc, source, MAX_INPUT) {
            Ok(fraction) => Ok(Comes::Done(Judged::Accepted(fraction))),
            Err(SourceErr::Refused { line, why }) => Ok(Comes::Done(Judged::Refused(line, why))),
            Err(SourceErr::TooLarge) => Ok(Comes::Stopped(Refusal::InputMet)),
            Err(SourceErr::Fault) => Err(Stop::ReadFault),
            Err(SourceErr::Memory) => Err(Stop::Memory),
        }
    }
}
