// The command `act N I L`.
ghost use Rattle.std.specs.Prelude.{◌≡◌, ◌≤◌, IfOk};
ghost use Rattle.wb_base.specs.Streams.{HasCause, Puts};
ghost use Rattle.wb_command.specs.Refusals.{comes_answer};
ghost use Rattle.wb_words.specs.Act.{AreActNumbers, act_meaning, act_of, acted, image_answer};

use crate::MAX_IMAGE;
use artin_laws::{ActErr, act};
use braid_word::Letter;
use free_word::{FreeWord, Gen, put_free};
use std::alloc::{AllocError, Global};
use std::marker::Model;
use wb_base::{Failed, Sink, Status, give_all};
use wb_command::{Args, Comes, InputErr, MAX_STRANDS, Refusal, Task, Written, read_one_word};

/// `act N I L`: gives the image of generator I of the free group under a word on N strands, over images of at
/// most L generators.
#[derive(Debug, Drop)]
pub struct Act {
    strands: u32,
    index: u32,
    limit: u32,
}

impl Model for Act {
    ghost use Rattle.wb_words.specs.Act.{ActNumbers, AreActNumbers};

    ghost Value = { ActNumbers };

    ghost view = { λ s. record { strands = s.strands; index = s.index; limit = s.limit } };

    ghost invariant = { λ s. AreActNumbers
        (record { strands = s.strands; index = s.index; limit = s.limit }) };
}

impl Act {
    /// The command with the number of strands, the index of the generator, from 1, and the limit of an image.
    pub fn new(strands: u32, index: u32, limit: u32) -> Act
        requires { AreActNumbers (record { strands = strands; index = index; limit = limit }) }
        ensures { result ≡ record { strands = strands; index = index; limit = limit } }
    {
        Act {
            strands,
            index,
            limit,
        }
    }

    /// The command with the numbers that the words are, if they are three such.
    pub fn read(words: &mut Args<'_>) -> Option<Act>
        ensures { result ≡ act_of words.old }
    {
        let strands = words.number(2, MAX_STRANDS)?;
        let index = words.number(1, strands)?;
        let limit = words.number(1, MAX_IMAGE)?;
        if words.is_at_end() {
            Some(Act {
                strands,
                index,
                limit,
            })
        } else {
            None
        }
    }
}

/// The image of a generator.
#[derive(Drop)]
pub struct Image {
    image: FreeWord,
}

impl Model for Image {
    ghost use Rattle.std.specs.Prelude.{List};
    ghost use Rattle.free_word.specs.FreeWords.{Gen as Generator};

    ghost Value = { List Generator };

    ghost view = { λ s. s.image };
}

// Gives the line of an image.
fn put_image<K: Sink>(sink: &mut K, image: &FreeWord) -> Result<(), Failed>
    ensures took { Puts (K.taken sink.old) (K.taken sink.new) result (image_answer image.now).text }
    ensures cause { HasCause (K.faults sink.old) (K.faults sink.new) result }
{
    put_free(sink, image)?;
    give_all(sink, b"\n")
}

impl Written for Image {
    ghost answer = { image_answer };

    fn status(&self) -> Status {
        Status::Done
    }

    fn put<K: Sink>(&self, sink: &mut K) -> Result<(), Failed> {
        put_image(sink, &self.image)
    }
}

// The image of a generator under a word, over images of at most so many generators.
fn act_on(
    alloc: Global,
    word: &[Letter],
    index: u16,
    limit: u32,
) -> Result<Comes<Image>, AllocError>
    requires index { 1 ≤ index }
    requires limit { 1 ≤ limit }
    ensures { IfOk result (λ outcome. acted index limit word.now ≡ comes_answer image_answer outcome) }
{
    let start = FreeWord::single(alloc, Gen::new(index, false))?;
    match act(alloc, word, &start, limit) {
        Ok(image) => Ok(Comes::Done(Image { image })),
        Err(ActErr::TooLong) => Ok(Comes::Stopped(Refusal::ImageMet(u64::from(limit)))),
        Err(ActErr::Memory) => Err(AllocError),
    }
}

impl Task for Act {
    type Done = Image;

    ghost meaning = { act_meaning };

    fn reads(&self) -> bool {
        true
    }

    fn law_sound(&self) {}

    fn perform(&self, alloc: Global, input: &[u8]) -> Result<Comes<Image>, AllocError> {
        let index = self.index as u16;
        match read_one_word(alloc, self.strands, input) {
            Ok(word) => act_on(alloc, word.letters(), index, self.limit),
            Err(InputErr::Fault(fault)) => Ok(Comes::Stopped(Refusal::BadInput(fault))),
            Err(InputErr::Memory) => Err(AllocError),
        }
    }
}
