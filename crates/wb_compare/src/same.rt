// The command `same N`.
ghost use Rattle.std.specs.Prelude.{◌≡◌, ◌≤◌, ◌↔◌, length, IfOk, IsTrue};
ghost use Rattle.wb_base.specs.Lines.{line};
ghost use Rattle.braid_word.specs.Words.{IsOn};
ghost use Rattle.braid_word.specs.Equivalence.{EquivalentOn};
ghost use Rattle.braid_word.specs.declared.TheConstants.{MAX_LETTERS};
ghost use Rattle.wb_command.specs.declared.TheConstants.{MAX_STRANDS};
ghost use Rattle.wb_compare.specs.Same.{decided, same_meaning, strands_of};

use braid_word::Letter;
use garside_form::normal_on;
use std::alloc::{AllocError, Global};
use std::marker::Model;
use wb_base::{Failed, Sink, Status, put_line};
use wb_command::{Args, Comes, InputErr, MAX_STRANDS, Refusal, Task, Written, read_two_words};

/// `same N`: tells whether two words are equivalent on N strands.
#[derive(Debug, Drop)]
pub struct Same {
    strands: u32,
}

impl Model for Same {
    ghost use Rattle.std.specs.Prelude.{ℕ, ◌≤◌};
    ghost use Rattle.wb_command.specs.declared.TheConstants.{MAX_STRANDS};

    ghost Value = { ℕ };

    ghost view = { λ s. s.strands };

    ghost invariant = { λ s. (2 ≤ s.strands) × (s.strands ≤ MAX_STRANDS) };
}

impl Same {
    /// The command with the number of strands.
    pub fn new(strands: u32) -> Same
        requires low { 2 ≤ strands }
        requires high { strands ≤ MAX_STRANDS }
        ensures { result ≡ strands }
    {
        Same { strands }
    }

    /// The command with the number that the words are, if they are one.
    pub fn read(words: &mut Args<'_>) -> Option<Same>
        ensures { result ≡ strands_of words.old }
    {
        let strands = words.number(2, MAX_STRANDS)?;
        if words.is_at_end() {
            Some(Same { strands })
        } else {
            None
        }
    }
}

/// Whether two words are equivalent.
#[derive(Clone, Copy, Debug, PartialEq, Eq)]
pub struct Decision {
    /// They are.
    pub equivalent: bool,
}

// The line of `same`, without its LF.
fn decided_line(same: bool) -> &'static [u8]
    ensures { line result.now ≡ (decided same).text }
{
    if same { b"same" } else { b"different" }
}

impl Written for Decision {
    ghost answer = { λ decision. decided decision.equivalent };

    fn status(&self) -> Status {
        Status::Done
    }

    fn put<K: Sink>(&self, sink: &mut K) -> Result<(), Failed> {
        put_line(sink, decided_line(self.equivalent))
    }
}

// Whether two words are equivalent on these strands.
fn are_same(
    alloc: Global,
    left: &[Letter],
    right: &[Letter],
    strands: u32,
) -> Result<bool, AllocError>
    requires low { 2 ≤ strands }
    requires high { strands ≤ MAX_STRANDS }
    requires left_most { length left.now ≤ MAX_LETTERS }
    requires right_most { length right.now ≤ MAX_LETTERS }
    requires left_on { IsOn strands left.now }
    requires right_on { IsOn strands right.now }
    ensures { IfOk result (λ same. IsTrue same ↔ EquivalentOn strands left.now right.now) }
{
    let first = normal_on(alloc, left, strands)?;
    let second = normal_on(alloc, right, strands)?;
    Ok(garside_form::same(&first, &second))
}

impl Task for Same {
    type Done = Decision;

    ghost meaning = { same_meaning };

    fn reads(&self) -> bool {
        true
    }

    fn law_sound(&self) {
        let _ = &self.strands;
    }

    fn perform(&self, alloc: Global, input: &[u8]) -> Result<Comes<Decision>, AllocError> {
        let strands = self.strands;
        match read_two_words(alloc, strands, input) {
            Ok((left, right)) => {
                let equivalent = are_same(alloc, left.letters(), right.letters(), strands)?;
                Ok(Comes::Done(Decision { equivalent }))
            }
            Err(InputErr::Fault(fault)) => Ok(Comes::Stopped(Refusal::BadInput(fault))),
            Err(InputErr::Memory) => Err(AllocError),
        }
    }
}
