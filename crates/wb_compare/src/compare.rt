// The command `compare H L`.
ghost use Rattle.std.specs.Prelude.{◌≡◌, ◌≤◌, IfOk, Some};
ghost use Rattle.handle_reduce.specs.declared.TheConstants.{MAX_BOUND};
ghost use Rattle.wb_command.specs.Refusals.{comes_answer};
ghost use Rattle.wb_compare.specs.Limits.{limits_of};
ghost use Rattle.wb_compare.specs.Compare.{compare_meaning, compared, compared_answer};

use crate::reduce::{Ended, reduce};
use braid_word::{MAX_INDEX, Word};
use handle_reduce::{MAX_BOUND, Reducer};
use std::alloc::{AllocError, Global};
use std::marker::Model;
use trace_format::{Verdict, put_trace};
use wb_base::{Failed, Sink, Status};
use wb_command::{Args, Comes, InputErr, Refusal, Task, Written, read_two_words};

/// `compare H L`: compares two words by at most H handle reductions, over words of at most L letters.
#[derive(Debug, Drop)]
pub struct Compare {
    handles: u32,
    letters: u32,
}

impl Model for Compare {
    ghost use Rattle.wb_compare.specs.Limits.{Limits, AreLimits};

    ghost Value = { Limits };

    ghost view = { λ s. record { handles = s.handles; letters = s.letters } };

    ghost invariant = { λ s. AreLimits (record { handles = s.handles; letters = s.letters }) };
}

impl Compare {
    /// The command with the most handle reductions, and the most letters of a word.
    pub fn new(handles: u32, letters: u32) -> Compare
        requires handles { handles ≤ MAX_BOUND }
        requires letters { letters ≤ MAX_BOUND }
        ensures { result ≡ record { handles = handles; letters = letters } }
    {
        Compare { handles, letters }
    }

    /// The command with the two numbers that the words are, if they are two such.
    pub fn read(words: &mut Args<'_>) -> Option<Compare>
        ensures { result ≡ limits_of words.old }
    {
        let handles = words.number(0, MAX_BOUND)?;
        let letters = words.number(0, MAX_BOUND)?;
        if words.is_at_end() {
            Some(Compare { handles, letters })
        } else {
            None
        }
    }
}

/// Two words, and the reduction of their quotient, which has come to a verdict.
#[derive(Drop)]
pub struct Compared {
    left: Word,
    right: Word,
    verdict: Verdict,
    reducer: Reducer,
}

impl Written for Compared {
    ghost answer = { compared_answer };

    fn status(&self) -> Status {
        Status::Done
    }

    fn put<K: Sink>(&self, sink: &mut K) -> Result<(), Failed> {
        put_trace(
            sink,
            self.left.letters(),
            self.right.letters(),
            &self.reducer,
            self.verdict,
        )
    }
}

// Compares two words, within these limits.
fn compare_on(
    alloc: Global,
    left: Word,
    right: Word,
    handles: u32,
    limit: u32,
) -> Result<Comes<Compared>, AllocError>
    requires handles { handles ≤ MAX_BOUND }
    requires limit { limit ≤ MAX_BOUND }
    ensures { IfOk result (λ outcome. compared handles limit left right ≡ Some
        (comes_answer compared_answer outcome)) }
{
    match reduce(alloc, left.letters(), right.letters(), handles, limit)? {
        Ended::Decided { verdict, reducer } => Ok(Comes::Done(Compared {
            left,
            right,
            verdict,
            reducer,
        })),
        Ended::HandlesMet => Ok(Comes::Stopped(Refusal::HandlesMet(u64::from(handles)))),
        Ended::LengthMet => Ok(Comes::Stopped(Refusal::LengthMet(u64::from(limit)))),
    }
}

impl Task for Compare {
    type Done = Compared;

    ghost meaning = { compare_meaning };

    fn reads(&self) -> bool {
        true
    }

    fn law_sound(&self) {
        let _ = &self.handles;
    }

    fn perform(&self, alloc: Global, input: &[u8]) -> Result<Comes<Compared>, AllocError> {
        let (handles, letters) = (self.handles, self.letters);
        match read_two_words(alloc, u32::from(MAX_INDEX) + 1, input) {
            Ok((left, right)) => compare_on(alloc, left, right, handles, letters),
            Err(InputErr::Fault(fault)) => Ok(Comes::Stopped(Refusal::BadInput(fault))),
            Err(InputErr::Memory) => Err(AllocError),
        }
    }
}
