use crate::fraction::Fraction;
use crate::present::Present;
use braid_word::Word;

/// The word of a reverse file, and the word that its steps have reached.
#[derive(Debug, Drop)]
pub struct Replay {
    pub word: Word,
    pub present: Present,
}

/// Which line of a reverse file is due, with what was read before it.
#[derive(Debug, Drop)]
pub enum Due {
    /// The start.
    Start,
    /// The word.
    Word,
    /// A step, or the left word.
    Step(Replay),
    /// The right word, behind this left one.
    Right(Replay, Word),
    /// The end, behind what the file claims.
    Finish(Fraction),
    /// No line: the end was passed.
    Passed(Fraction),
}
