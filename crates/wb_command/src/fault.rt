ghost use Rattle.wb_base.specs.Streams.{HasCause, Puts};
ghost use Rattle.wb_command.specs.Faults.{bare_fault, fault_text, numbered_fault};

use wb_base::{Failed, Sink, put_line, put_numbered, put_numbered_line};

/// What is wrong with an input, at a line that is counted from 1.
#[derive(Clone, Copy, Debug, PartialEq, Eq)]
pub enum Fault {
    /// The line is missing, or is one too many.
    Lines(u64),
    /// A piece that is no letter begins at this byte of the line, counted from 1.
    Letters(u64, u64),
    /// A number that is no index begins at this byte of the line, counted from 1.
    Index(u64, u64),
    /// The word has so many letters, which are too many.
    Long(u64, u64),
    /// The letter at this place of the word, counted from 1, is the first whose index isn't below the
    /// number of strands.
    Strands(u64, u64),
    /// The letter at this place of the word, counted from 1, is the first inverse one, where none may be.
    Negative(u64, u64),
    /// The line leaves the grammar of terms at this byte, counted from 1.
    Term(u64, u64),
    /// The term has so great a height, which is too great.
    Deep(u64, u64),
    /// The term has so many products, which are too many.
    Many(u64, u64),
    /// A name that is defined again begins at this byte.
    Twice(u64, u64),
    /// A name that no earlier line defines begins at this byte, and is the first such.
    Unknown(u64, u64),
    /// The address leads below a leaf of the term of this line.
    Address(u64),
    /// The part at the address has nothing to expand.
    Expand(u64),
}

impl Fault {
    /// Gives the line that says what is wrong.
    pub fn put<K: Sink>(&self, sink: &mut K) -> Result<(), Failed>
        ensures took { Puts (K.taken sink.old) (K.taken sink.new) result (fault_text self.now) }
        ensures cause { HasCause (K.faults sink.old) (K.faults sink.new) result }
    {
        match *self {
            Fault::Lines(line) => put_bare(sink, line, b" lines"),
            Fault::Letters(line, place) => put_fault(sink, line, b" letter ", place),
            Fault::Index(line, place) => put_fault(sink, line, b" index ", place),
            Fault::Long(line, count) => put_fault(sink, line, b" long ", count),
            Fault::Strands(line, place) => put_fault(sink, line, b" strands ", place),
            Fault::Negative(line, place) => put_fault(sink, line, b" negative ", place),
            Fault::Term(line, place) => put_fault(sink, line, b" term ", place),
            Fault::Deep(line, height) => put_fault(sink, line, b" deep ", height),
            Fault::Many(line, products) => put_fault(sink, line, b" many ", products),
            Fault::Twice(line, place) => put_fault(sink, line, b" twice ", place),
            Fault::Unknown(line, place) => put_fault(sink, line, b" unknown ", place),
            Fault::Address(line) => put_bare(sink, line, b" address"),
            Fault::Expand(line) => put_bare(sink, line, b" expand"),
        }
    }
}

// Gives the line of a fault without a number, by its name.
fn put_bare<K: Sink>(sink: &mut K, line: u64, name: &[u8]) -> Result<(), Failed>
    ensures took { Puts (K.taken sink.old) (K.taken sink.new) result (bare_fault line name.now) }
    ensures cause { HasCause (K.faults sink.old) (K.faults sink.new) result }
{
    put_numbered(sink, b"input ", line)?;
    put_line(sink, name)
}

// Gives the line of a fault by its name and its number.
fn put_fault<K: Sink>(sink: &mut K, line: u64, name: &[u8], number: u64) -> Result<(), Failed>
    ensures took { Puts (K.taken sink.old) (K.taken sink.new) result (numbered_fault line name.now number) }
    ensures cause { HasCause (K.faults sink.old) (K.faults sink.new) result }
{
    put_numbered(sink, b"input ", line)?;
    put_numbered_line(sink, name, number)
}
