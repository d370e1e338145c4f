use braid_word::Sign;

/// How a run of handle reductions stands.
#[derive(Clone, Copy, Debug, PartialEq, Eq)]
pub enum Progress {
    /// A further turn reduces a handle, or meets the limit on the length.
    Running,
    /// The word that was reached has no handle, and this sign.
    Done(Sign),
    /// As many handles were reduced as may be, and one is left.
    HandlesMet,
    /// The word, or the next reduct, has more letters than it may.
    LengthMet,
}
