// The command `gcd N`.
ghost use Rattle.std.specs.Prelude.{◌≡◌, ◌≤◌, length, IfOk};
ghost use Rattle.wb_base.specs.Streams.{HasCause, Puts};
ghost use Rattle.braid_word.specs.Words.{IsOn, IsPositiveWord};
ghost use Rattle.braid_word.specs.declared.TheConstants.{MAX_LETTERS};
ghost use Rattle.braid_gcd.specs.Faults.{length_fault};
ghost use Rattle.wb_command.specs.Refusals.{comes_answer};
ghost use Rattle.wb_command.specs.declared.TheConstants.{MAX_STRANDS};
ghost use Rattle.wb_words.specs.GreatestDivisor.{IsDividedOr, division_answer, division_text, gcd_meaning, gcd_of};

use braid_gcd::{CommonDivisor, GcdErr, MAX_DIVIDED, gcd};
use braid_word::{Letter, put_word_line};
use std::alloc::{AllocError, Global};
use std::marker::Model;
use wb_base::{Failed, Sink, Status};
use wb_command::{
    Args, Comes, InputErr, MAX_STRANDS, Refusal, Task, Written, read_two_positive_words,
};

/// `gcd N`: gives the greatest common left divisor of two positive words on N strands, and what is left of
/// them behind it.
#[derive(Debug, Drop)]
pub struct Gcd {
    strands: u32,
}

impl Model for Gcd {
    ghost use Rattle.std.specs.Prelude.{ℕ, ◌≤◌};
    ghost use Rattle.wb_command.specs.declared.TheConstants.{MAX_STRANDS};

    ghost Value = { ℕ };

    ghost view = { λ s. s.strands };

    ghost invariant = { λ s. (2 ≤ s.strands) × (s.strands ≤ MAX_STRANDS) };
}

impl Gcd {
    /// The command with this number of strands.
    pub fn new(strands: u32) -> Gcd
        requires low { 2 ≤ strands }
        requires high { strands ≤ MAX_STRANDS }
        ensures { result ≡ strands }
    {
        Gcd { strands }
    }

    /// The command with the number that the words are, if they are one.
    pub fn read(words: &mut Args<'_>) -> Option<Gcd>
        ensures { result ≡ gcd_of words.old }
    {
        let strands = words.number(2, MAX_STRANDS)?;
        if words.is_at_end() {
            Some(Gcd { strands })
        } else {
            None
        }
    }
}

/// The greatest common divisor of two words, and what is left of them.
#[derive(Drop)]
pub struct Division {
    found: CommonDivisor,
}

impl Model for Division {
    ghost use Rattle.braid_gcd.specs.NormalWords.{Answer as Divided};

    ghost Value = { Divided };

    ghost view = { λ s. s.found };
}

// Gives the lines of a divisor and of what is left of two words behind it.
fn put_division<K: Sink>(sink: &mut K, found: &CommonDivisor) -> Result<(), Failed>
    ensures took { Puts (K.taken sink.old) (K.taken sink.new) result (division_text found.now) }
    ensures cause { HasCause (K.faults sink.old) (K.faults sink.new) result }
{
    put_word_line(sink, b"divisor", found.divisor())?;
    put_word_line(sink, b"left", found.left())?;
    put_word_line(sink, b"right", found.right())
}

impl Written for Division {
    ghost answer = { division_answer };

    fn status(&self) -> Status {
        Status::Done
    }

    fn put<K: Sink>(&self, sink: &mut K) -> Result<(), Failed> {
        put_division(sink, &self.found)
    }
}

// The greatest common divisor of two positive words on so many strands, or the limit on their letters.
fn divide(
    alloc: Global,
    first: &[Letter],
    second: &[Letter],
    strands: u32,
) -> Result<Comes<Division>, AllocError>
    requires low { 2 ≤ strands }
    requires high { strands ≤ MAX_STRANDS }
    requires first_most { length first.now ≤ MAX_LETTERS }
    requires second_most { length second.now ≤ MAX_LETTERS }
    requires first_on { IsOn strands first.now }
    requires second_on { IsOn strands second.now }
    requires first_positive { IsPositiveWord first.now }
    requires second_positive { IsPositiveWord second.now }
    ensures { IfOk result (λ outcome. IsDividedOr strands first.now second.now
        (length_fault first.now second.now) (comes_answer division_answer outcome)) }
{
    match gcd(alloc, first, second, strands) {
        Ok(found) => Ok(Comes::Done(Division { found })),
        Err(GcdErr::TooLong { .. }) => {
            Ok(Comes::Stopped(Refusal::LettersMet(MAX_DIVIDED as u64)))
        }
        Err(GcdErr::Memory) => Err(AllocError),
        Err(GcdErr::Strands { .. }) => unreachable!(),
        Err(GcdErr::Negative { .. }) => unreachable!(),
    }
}

impl Task for Gcd {
    type Done = Division;

    ghost meaning = { gcd_meaning };

    fn reads(&self) -> bool {
        true
    }

    fn law_sound(&self) {
        let _ = &self.strands;
    }

    fn perform(&self, alloc: Global, input: &[u8]) -> Result<Comes<Division>, AllocError> {
        let strands = self.strands;
        match read_two_positive_words(alloc, strands, input) {
            Ok((first, second)) => divide(alloc, first.letters(), second.letters(), strands),
            Err(InputErr::Fault(fault)) => Ok(Comes::Stopped(Refusal::BadInput(fault))),
            Err(InputErr::Memory) => Err(AllocError),
        }
    }
}
