ghost use Rattle.std.specs.Prelude.{◌≡◌, ◌<◌, ◌≤◌};
ghost use Rattle.braid_word.specs.Words.{letter, opposite};

use std::marker::Model;

/// A generator of a braid group, or the inverse of one.
///
/// After Artin's presentation; its text is the index, with a minus sign before that of an inverse.
#[derive(Clone, Copy, Debug, PartialEq, Eq)]
pub struct Letter {
    /// The generator's index, counted from 1: from 1 to 65,534.
    pub index: u16,
    /// Whether this is the generator's inverse.
    pub negative: bool,
}

impl Model for Letter {
    ghost use Rattle.std.specs.Prelude.{◌<◌, ◌≤◌};
    ghost use Rattle.braid_word.specs.Words.{Letter as Signed, letter};

    ghost Value = { Signed };

    ghost view = { λ x. letter x.index x.negative };

    ghost invariant = { λ x. (1 ≤ x.index) × (x.index < 65535) };

    ghost inverse = { λ x. record { index = x.index; negative = x.negative } };
}

impl Letter {
    /// The letter of this index, counted from 1, and this sign.
    pub fn new(index: u16, negative: bool) -> Letter
        requires low { 1 ≤ index }
        requires high { index < 65535 }
        ensures { result ≡ letter index negative }
    {
        Letter { index, negative }
    }

    /// The index, counted from 1.
    pub fn index(self) -> u16
        ensures value { result ≡ self.index }
        ensures low { 1 ≤ result }
        ensures high { result < 65535 }
    {
        self.index
    }

    /// The letter with its sign turned, which is its inverse.
    pub fn opposite(self) -> Letter
        ensures { result ≡ opposite self }
    {
        Letter {
            index: self.index,
            negative: !self.negative,
        }
    }
}
