ghost use Rattle.std.specs.Prelude.{◌≡◌, ◌≤◌};
ghost use Rattle.free_word.specs.FreeWords.{gen, opposite};

use std::marker::Model;

/// A generator of a free group, or the inverse of one.
///
/// Its text is the index, with a minus sign before that of an inverse.
#[derive(Clone, Copy, Debug, PartialEq, Eq)]
pub struct Gen {
    /// The generator's index, from 1 to 65,535.
    pub index: u16,
    /// Whether this is the generator's inverse.
    pub negative: bool,
}

impl Model for Gen {
    ghost use Rattle.std.specs.Prelude.{◌≤◌};
    ghost use Rattle.free_word.specs.FreeWords.{Gen as Generator, gen};

    ghost Value = { Generator };

    ghost view = { λ x. gen x.index x.negative };

    ghost invariant = { λ x. 1 ≤ x.index };

    ghost inverse = { λ x. record { index = x.index; negative = x.negative } };
}

impl Gen {
    /// The generator of this index, counted from 1, or its inverse where `negative` is true.
    pub fn new(index: u16, negative: bool) -> Gen
        requires low { 1 ≤ index }
        ensures { result ≡ gen index negative }
    {
        Gen { index, negative }
    }

    /// The generator with its sign turned, which is its inverse.
    pub fn opposite(self) -> Gen
        ensures { result ≡ opposite self }
    {
        Gen {
            index: self.index,
            negative: !self.negative,
        }
    }
}
