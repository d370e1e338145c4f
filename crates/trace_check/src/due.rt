use crate::checked::Checked;
use crate::replay::Replay;
use braid_word::Word;
use trace_format::Verdict;

/// Which line of a trace file is due, with what was read before it.
#[derive(Debug, Drop)]
pub enum Due {
    /// The start.
    Start,
    /// The left word, or the left term.
    Left,
    /// The right word, behind this left one.
    Right(Word),
    /// The right term, behind a left one with this braid word.
    RightTerm(Word),
    /// A step, or the verdict.
    Step(Replay),
    /// The witness of this verdict.
    Witness(Replay, Verdict),
    /// The end, behind what the file claims.
    Finish(Checked),
    /// No line: the end was passed.
    Passed(Checked),
}
