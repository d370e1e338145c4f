ghost use Rattle.std.specs.Prelude.{◌≡◌, ◌+◌, ◌≤◌, if◌then◌else◌, length, IfOk, OnOk, Err};
ghost use Rattle.free_word.specs.FreeWords.{product};
ghost use Rattle.artin_laws.specs.Action.{image, act_letter, act, ImagesFit};
ghost use Rattle.artin_laws.specs.declared.action.ActErr.TheVariants.{TooLong, Memory};

use braid_word::Letter;
use free_word::{FreeWord, Gen};
use std::alloc::{AllocError, Global};
use thiserror::Error;

/// Why there is no image.
#[derive(Debug, Drop, Error)]
pub enum ActErr {
    /// The image after some suffix of the word is longer than the limit.
    #[error("an image is too long")]
    TooLong,
    /// Memory ran out.
    #[error("out of memory")]
    Memory,
}

impl From<AllocError> for ActErr {
    ghost from_gives = { λ _ e. e ≡ Memory };

    fn from(_error: AllocError) -> ActErr {
        ActErr::Memory
    }
}

// The index of the generator that a letter sends to three.
fn heavy(x: Letter) -> u16
    ensures value { result ≡ if x.negative then x.index + 1 else x.index }
    ensures low { 1 ≤ result }
{
    if x.negative { x.index + 1 } else { x.index }
}

// The index of the generator that a letter sends to one other.
fn light(x: Letter) -> u16
    ensures value { result ≡ if x.negative then x.index else x.index + 1 }
    ensures low { 1 ≤ result }
{
    if x.negative { x.index } else { x.index + 1 }
}

// Multiplies a word, from the right, by the image of a generator under a letter.
fn push_image(word: &mut FreeWord, x: Letter, y: Gen) -> Result<(), AllocError>
    ensures { OnOk result (word.new ≡ product word.old (image x y)) }
{
    let (heavy, light) = (heavy(x), light(x));
    if y.index == heavy {
        word.push(Gen::new(heavy, x.negative))?;
        word.push(Gen::new(light, y.negative))?;
        return word.push(Gen::new(heavy, !x.negative));
    }
    if y.index == light {
        return word.push(Gen::new(heavy, y.negative));
    }
    word.push(y)
}

// The image of a free word under a letter.
fn act_letter(alloc: Global, x: Letter, word: &[Gen]) -> Result<FreeWord, AllocError>
    ensures { IfOk result (λ f. f ≡ act_letter x word.now) }
{
    let mut image = FreeWord::with_capacity(alloc, word.len())?;
    for y in word {
        push_image(&mut image, x, *y)?;
    }
    Ok(image)
}

/// The image of a free word under a braid word, whose last letter acts first.
///
/// `TooLong` exactly where the image after some suffix of the word, the empty and the whole one too, has
/// more than `limit` generators, inverses counted as well. After Artin, Theory of braids; the side on
/// which words act is this project's choice.
pub fn act(alloc: Global, word: &[Letter], start: &FreeWord, limit: u32) -> Result<FreeWord, ActErr>
    requires short { length start.now ≤ limit }
    ensures image { IfOk result (λ f. f ≡ act word.now start.now) }
    ensures fits { IfOk result (λ _. ImagesFit limit word.now start.now) }
    ensures too_long { result ≡ Err TooLong → ImagesFit limit word.now start.now → ⊥ }
{
    let mut image = start.copy(alloc)?;
    for k in (0..word.len()).rev() {
        image = act_letter(alloc, word[k], image.letters())?;
        if image.letters().len() > limit as usize {
            return Err(ActErr::TooLong);
        }
    }
    Ok(image)
}
