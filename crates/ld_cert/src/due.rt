use crate::checked::LdChecked;
use term_graph::{NodeId, TermGraph};

/// The two terms of a certificate file, in the graph of its products.
#[derive(Drop)]
pub struct Both {
    pub graph: TermGraph,
    pub left: NodeId,
    pub right: NodeId,
}

/// The same, and what the two have become by the expansions so far.
#[derive(Drop)]
pub struct Present {
    pub both: Both,
    pub left: NodeId,
    pub right: NodeId,
}

/// Which line of a certificate file is due, with what was read before it.
#[derive(Drop)]
pub enum Due {
    /// The start.
    Start,
    /// The left term.
    Left,
    /// The right term, behind the left one with this number in the graph.
    Right(TermGraph, NodeId),
    /// The answer.
    Answer(Both),
    /// An expansion of the left or of the right term, or the end.
    LeftStep(Present),
    /// An expansion of the right term, or the end.
    RightStep(Present),
    /// The end, behind a no.
    Finish(LdChecked),
    /// No line: the end was passed.
    Passed(LdChecked),
}
