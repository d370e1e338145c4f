/// How a run of right reversing stands.
#[derive(Clone, Copy, Debug, PartialEq, Eq)]
pub enum RevProgress {
    /// A further turn turns a corner, or meets the limit on the length.
    Running,
    /// The word that was reached has no corner.
    Done,
    /// As many corners were turned as may be, and one is left.
    StepsMet,
    /// The word, or the next one, has more letters than it may.
    LengthMet,
}
