ghost use Rattle.std.specs.Prelude.{◌≡◌, ◌<◌, length};
ghost use Rattle.term_graph.specs.TermLists.{term_at};

use line_file::FileErr;
use std::marker::Model;
use term_graph::{NodeId, TermGraph};

/// Why a line of a certificate file is refused.
#[derive(Clone, Copy, Debug, PartialEq, Eq)]
pub enum LdWhy {
    /// It hasn't the form of a line that is due.
    Form,
    /// It isn't the start, the left or the right line that is due.
    Header,
    /// The address leads below a leaf of the term as it is by then, or the part there has no expansion.
    Place,
    /// The graph of the file refuses a product: it is too high, or one too many.
    Large,
    /// The two terms haven't become one.
    Differ,
    /// The two terms have one value in the table.
    Alike,
    /// The file ends too early.
    Truncated,
    /// The file goes on behind its end.
    Extra,
    /// The line is too long, or its term too high or too large.
    Long,
}

/// Why a certificate file isn't accepted: its first line, counted from 1, that is refused, and why, or that
/// memory ran out.
pub type LdErr = FileErr<LdWhy>;

/// The answer of a certificate.
#[derive(Clone, Copy, Debug, PartialEq, Eq)]
pub enum LdAnswer {
    /// The terms are equivalent.
    Yes,
    /// They aren't: they have two values in the Laver table whose size is 2 to this exponent.
    No(u32),
}

/// What an accepted certificate file claims: an answer on two terms. It has both terms in the graph of the
/// products that the check asked for.
#[derive(Drop)]
pub struct LdChecked {
    answer: LdAnswer,
    graph: TermGraph,
    left: NodeId,
    right: NodeId,
}

impl Model for LdChecked {
    ghost use Rattle.std.specs.Prelude.{◌<◌, length};
    ghost use Rattle.term_graph.specs.TermLists.{term_at};
    ghost use Rattle.ld_cert.specs.Accepted.{Claim};
    ghost use Rattle.ld_cert.specs.StateCodes.{coded_claim};

    ghost Value = { Claim };

    ghost coded = { coded_claim };

    ghost view = { λ s. record {
      answer = s.answer;
      made = s.graph;
      left = term_at s.graph s.left;
      right = term_at s.graph s.right;
    } };

    ghost invariant = { λ s. (s.left < length s.graph) × (s.right < length s.graph) };
}

impl LdChecked {
    // Puts a claim together.
    pub(crate) fn new(answer: LdAnswer, graph: TermGraph, left: NodeId, right: NodeId) -> LdChecked
        requires left { left < length graph }
        requires right { right < length graph }
        ensures { result ≡ record {
          answer = answer;
          made = graph;
          left = term_at graph left;
          right = term_at graph right;
        } }
    {
        LdChecked {
            answer,
            graph,
            left,
            right,
        }
    }

    /// The answer.
    pub fn answer(&self) -> LdAnswer
        ensures { result ≡ self.now.answer }
    {
        self.answer
    }

    /// The graph of the products that the check asked for.
    pub fn graph(&self) -> &TermGraph
        ensures { result.now ≡ self.now.made }
    {
        &self.graph
    }

    /// The number of the left term in the graph.
    pub fn left(&self) -> NodeId
        ensures there { result < length self.now.made }
        ensures term { term_at self.now.made result ≡ self.now.left }
    {
        self.left
    }

    /// The number of the right term in the graph.
    pub fn right(&self) -> NodeId
        ensures there { result < length self.now.made }
        ensures term { term_at self.now.made result ≡ self.now.right }
    {
        self.right
    }
}
