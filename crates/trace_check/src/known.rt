// What is known of the present word's letters, so that nests of handles needn't be read at each step.
ghost use Rattle.std.specs.Prelude.{◌≡◌, ℕ, ◌-◌, ◌<◌, ◌≤◌, List, length};
ghost use Rattle.std.specs.List.{remove};
ghost use Rattle.braid_word.specs.Words.{Letter};
ghost use Rattle.trace_check.specs.Presents.{AreAbove, IsKnown, IsPassed};

/// A stretch of a word, from one place up to another, all letters of which have an index above this one.
/// Places count from 0.
#[derive(Clone, Copy, Debug)]
pub struct Stretch {
    pub from: usize,
    pub to: usize,
    pub above: u16,
}

/// What is known of a word's letters: the inside of the handle that was reduced last, and that of the last
/// one before it of another index, since two nests of handles may be closed in turn.
#[derive(Clone, Copy, Debug)]
pub struct Known {
    pub inside: Stretch,
    pub other: Stretch,
}

// Where a place is once the letter at this one is taken out.
fn shifted(place: usize, out: usize) -> usize
    ensures before { place ≤ out → result ≡ place }
    ensures behind { out < place → result ≡ place - 1 }
{
    if out < place { place - 1 } else { place }
}

impl Stretch {
    // The letters of the stretch between two places, if they needn't be read for a handle of this index.
    fn passed(self, from: usize, to: usize, index: u16) -> (usize, usize)
        requires { from ≤ to }
        ensures { IsPassed (λ w. AreAbove w self) index from to result.0 result.1 }
    {
        let low = self.from.max(from);
        let high = self.to.min(to);
        if index < self.above && low < high {
            (low, high)
        } else {
            (to, to)
        }
    }

    // Where its letters are once the one at this place is taken out.
    fn without(self, out: usize) -> Stretch
        ensures { (w : List Letter) → out < length w → AreAbove w self → AreAbove (remove w out) result }
    {
        Stretch {
            from: shifted(self.from, out),
            to: shifted(self.to, out),
            above: self.above,
        }
    }
}

impl Known {
    /// No letter, of any word.
    pub fn nothing() -> Known
        ensures { (w : List Letter) → IsKnown w result }
    {
        let none = Stretch {
            from: 0,
            to: 0,
            above: 0,
        };
        Known {
            inside: none,
            other: none,
        }
    }

    /// The letters between two places that needn't be read for a handle of this index: none of them is as low
    /// as its ends, or raised. They are those from the first place answered up to the second.
    pub fn passed(self, from: usize, to: usize, index: u16) -> (usize, usize)
        requires { from ≤ to }
        ensures { IsPassed (λ w. IsKnown w self) index from to result.0 result.1 }
    {
        let (low, high) = self.inside.passed(from, to, index);
        let (other_low, other_high) = self.other.passed(from, to, index);
        if high - low < other_high - other_low {
            (other_low, other_high)
        } else {
            (low, high)
        }
    }

    /// What stays known once the letter at this place is taken out.
    pub fn without(self, out: usize) -> Known
        ensures { (w : List Letter) → out < length w → IsKnown w self → IsKnown (remove w out) result }
    {
        Known {
            inside: self.inside.without(out),
            other: self.other.without(out),
        }
    }

    /// What is known with the inside of one more handle. Those of one nest have one index, and each inside has
    /// the ones before in it: so the last is enough.
    pub fn with(self, inside: Stretch) -> Known
        ensures { (w : List Letter) → IsKnown w self → AreAbove w inside → IsKnown w result }
    {
        let other = if inside.above == self.inside.above {
            self.other
        } else {
            self.inside
        };
        Known { inside, other }
    }
}
