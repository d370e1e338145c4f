ghost use Rattle.std.specs.Prelude.{◌+◌, ◌≤◌, length};
ghost use Rattle.wb_base.specs.Streams.{HasCause, Puts};
ghost use Rattle.ld_term.specs.TermTexts.{term_text};
ghost use Rattle.ld_term.specs.TreeTexts.{written};

use crate::tree::Tree;
use wb_base::{Failed, Sink, give_all};

/// Gives a term with all its brackets, and no space or LF. A name is written as it is.
///
/// After `Failed` the sink has taken a front of the text. It takes no memory.
pub fn put_term<K: Sink>(sink: &mut K, term: &Tree) -> Result<(), Failed>
    ensures took { Puts (K.taken sink.old) (K.taken sink.new) result (term_text (written term.now)) }
    ensures cause { HasCause (K.faults sink.old) (K.faults sink.new) result }
    ensures waits { K.waiting sink.new ≤ K.waiting sink.old + length (term_text (written term.now)) }
{
    match term {
        Tree::X => give_all(sink, b"x"),
        Tree::Named { name, .. } => give_all(sink, name.bytes()),
        Tree::Product(left, right) => {
            give_all(sink, b"(")?;
            put_term(sink, left)?;
            give_all(sink, b"*")?;
            put_term(sink, right)?;
            give_all(sink, b")")
        }
    }
}
