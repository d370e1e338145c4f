use crate::present::Present;
use braid_word::Word;

/// The words of a trace file that have been read, or the braid words of its terms, the word that its steps
/// have reached, and their number.
#[derive(Debug, Drop)]
pub struct Replay {
    pub left: Word,
    pub right: Word,
    pub present: Present,
    pub steps: u64,
}
