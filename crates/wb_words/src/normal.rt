// The command `normal N`.
ghost use Rattle.std.specs.Prelude.{◌≡◌, ◌≤◌};
ghost use Rattle.wb_words.specs.Normal.{form_answer, normal_meaning, normal_of};
ghost use Rattle.wb_command.specs.declared.TheConstants.{MAX_STRANDS};

use garside_form::{NormalForm, normal_on, put_normal};
use std::alloc::{AllocError, Global};
use std::marker::Model;
use wb_base::{Failed, Sink, Status};
use wb_command::{Args, Comes, InputErr, MAX_STRANDS, Refusal, Task, Written, read_one_word};

/// `normal N`: gives the normal form of a word on N strands.
#[derive(Debug, Drop)]
pub struct Normal {
    strands: u32,
}

impl Model for Normal {
    ghost use Rattle.std.specs.Prelude.{ℕ, ◌≤◌};
    ghost use Rattle.wb_command.specs.declared.TheConstants.{MAX_STRANDS};

    ghost Value = { ℕ };

    ghost view = { λ s. s.strands };

    ghost invariant = { λ s. (2 ≤ s.strands) × (s.strands ≤ MAX_STRANDS) };
}

impl Normal {
    /// The command with this number of strands.
    pub fn new(strands: u32) -> Normal
        requires low { 2 ≤ strands }
        requires high { strands ≤ MAX_STRANDS }
        ensures { result ≡ strands }
    {
        Normal { strands }
    }

    /// The command with the number that the words are, if they are one.
    pub fn read(words: &mut Args<'_>) -> Option<Normal>
        ensures { result ≡ normal_of words.old }
    {
        let strands = words.number(2, MAX_STRANDS)?;
        if words.is_at_end() {
            Some(Normal { strands })
        } else {
            None
        }
    }
}

/// The normal form of a word.
#[derive(Drop)]
pub struct NormalWord {
    form: NormalForm,
}

impl Model for NormalWord {
    ghost use Rattle.garside_form.specs.NormalForms.{Form};

    ghost Value = { Form };

    ghost view = { λ s. s.form };
}

impl Written for NormalWord {
    ghost answer = { form_answer };

    fn status(&self) -> Status {
        Status::Done
    }

    fn put<K: Sink>(&self, sink: &mut K) -> Result<(), Failed> {
        put_normal(sink, &self.form)
    }
}

impl Task for Normal {
    type Done = NormalWord;

    ghost meaning = { normal_meaning };

    fn reads(&self) -> bool {
        true
    }

    fn law_sound(&self) {
        let _ = &self.strands;
    }

    fn perform(&self, alloc: Global, input: &[u8]) -> Result<Comes<NormalWord>, AllocError> {
        let strands = self.strands;
        match read_one_word(alloc, strands, input) {
            Ok(word) => {
                let form = normal_on(alloc, word.letters(), strands)?;
                Ok(Comes::Done(NormalWord { form }))
            }
            Err(InputErr::Fault(fault)) => Ok(Comes::Stopped(Refusal::BadInput(fault))),
            Err(InputErr::Memory) => Err(AllocError),
        }
    }
}
