// The command `reverse H L`.
ghost use Rattle.std.specs.Prelude.{◌≡◌, ◌≤◌, length, IfOk, Some};
ghost use Rattle.braid_word.specs.declared.TheConstants.{MAX_LETTERS};
ghost use Rattle.word_reverse.specs.declared.TheConstants.{MAX_BOUND};
ghost use Rattle.wb_command.specs.Refusals.{comes_answer};
ghost use Rattle.wb_reverse.specs.Reverse.{limits_of, reverse_meaning, reversed, reversed_answer};

use braid_word::{MAX_INDEX, Word};
use std::alloc::{AllocError, Global};
use std::marker::Model;
use wb_base::{Failed, Sink, Status};
use wb_command::{Args, Comes, InputErr, Refusal, Task, Written, read_one_word};
use word_reverse::{MAX_BOUND, RevProgress, Reverser, put_reversal};

/// `reverse H L`: gives a word as a fraction by turning at most H corners, over words of at most L letters.
#[derive(Debug, Drop)]
pub struct Reverse {
    steps: u32,
    letters: u32,
}

impl Model for Reverse {
    ghost use Rattle.wb_reverse.specs.Reverse.{Limits, AreLimits};

    ghost Value = { Limits };

    ghost view = { λ s. record { steps = s.steps; letters = s.letters } };

    ghost invariant = { λ s. AreLimits (record { steps = s.steps; letters = s.letters }) };
}

impl Reverse {
    /// The command with the most corners turned, and the most letters of a word.
    pub fn new(steps: u32, letters: u32) -> Reverse
        requires steps { steps ≤ MAX_BOUND }
        requires letters { letters ≤ MAX_BOUND }
        ensures { result ≡ record { steps = steps; letters = letters } }
    {
        Reverse { steps, letters }
    }

    /// The command with the two numbers that the words are, if they are two such.
    pub fn read(words: &mut Args<'_>) -> Option<Reverse>
        ensures { result ≡ limits_of words.old }
    {
        let steps = words.number(0, MAX_BOUND)?;
        let letters = words.number(0, MAX_BOUND)?;
        if words.is_at_end() {
            Some(Reverse { steps, letters })
        } else {
            None
        }
    }
}

/// A word, and its run, which is done.
#[derive(Drop)]
pub struct Reversed {
    word: Word,
    run: Reverser,
}

impl Model for Reversed {
    ghost use Rattle.std.specs.Prelude.{◌≡◌};
    ghost use Rattle.word_reverse.specs.declared.progress.RevProgress.TheVariants.{Done};
    ghost use Rattle.word_reverse.specs.ReverseText.{Reversal};
    ghost use Rattle.word_reverse.specs.Written.{reversal_of};

    ghost Value = { Reversal };

    ghost view = { λ s. reversal_of s.word s.run.run };

    ghost invariant = { λ s. s.run.run.progress ≡ Done };
}

impl Written for Reversed {
    ghost answer = { reversed_answer };

    fn status(&self) -> Status {
        Status::Done
    }

    fn put<K: Sink>(&self, sink: &mut K) -> Result<(), Failed> {
        put_reversal(sink, self.word.letters(), &self.run)
    }
}

// Reverses a word, within these limits.
fn reverse_on(
    alloc: Global,
    word: Word,
    steps: u32,
    limit: u32,
) -> Result<Comes<Reversed>, AllocError>
    requires word { length word ≤ MAX_LETTERS }
    requires steps { steps ≤ MAX_BOUND }
    requires limit { limit ≤ MAX_BOUND }
    ensures { IfOk result (λ outcome. reversed steps limit word ≡ Some
        (comes_answer reversed_answer outcome)) }
{
    let copy = Word::from_letters(alloc, word.letters())?;
    let mut run = Reverser::begin(alloc, copy, steps, limit)?;
    match run.turn(steps) {
        RevProgress::Done => Ok(Comes::Done(Reversed { word, run })),
        RevProgress::StepsMet => Ok(Comes::Stopped(Refusal::StepsMet(u64::from(steps)))),
        RevProgress::LengthMet => Ok(Comes::Stopped(Refusal::LengthMet(u64::from(limit)))),
        RevProgress::Running => unreachable!(),
    }
}

impl Task for Reverse {
    type Done = Reversed;

    ghost meaning = { reverse_meaning };

    fn reads(&self) -> bool {
        true
    }

    fn law_sound(&self) {
        let _ = &self.steps;
    }

    fn perform(&self, alloc: Global, input: &[u8]) -> Result<Comes<Reversed>, AllocError> {
        let (steps, letters) = (self.steps, self.letters);
        match read_one_word(alloc, u32::from(MAX_INDEX) + 1, input) {
            Ok(word) => reverse_on(alloc, word, steps, letters),
            Err(InputErr::Fault(fault)) => Ok(Comes::Stopped(Refusal::BadInput(fault))),
            Err(InputErr::Memory) => Err(AllocError),
        }
    }
}
