// The command `row n p`.
ghost use Rattle.std.specs.Prelude.{◌≡◌, ◌<◌, ◌≤◌, ◌^◌};
ghost use Rattle.wb_base.specs.Streams.{HasCause, Puts};
ghost use Rattle.laver_table.specs.TableText.{row_line};
ghost use Rattle.laver_table.specs.declared.TheConstants.{MAX_EXPONENT};
ghost use Rattle.wb_terms.specs.Row.{AreRowNumbers, row_answer, row_meaning, row_of_words};

use laver_table::{MAX_EXPONENT, Table, put_row};
use std::alloc::{AllocError, Global};
use std::marker::{Brand, Model};
use std::sync::ledger::{Blank, Ledger};
use wb_base::{Failed, Sink, Status, Steps};
use wb_command::{Args, Comes, Task, Written};

/// `row n p`: gives row p, counted from 1, of the Laver table of size 2^n.
#[derive(Debug, Drop)]
pub struct Row {
    exponent: u32,
    row: u32,
}

impl Model for Row {
    ghost use Rattle.wb_terms.specs.Row.{RowNumbers, AreRowNumbers};

    ghost Value = { RowNumbers };

    ghost view = { λ s. record { exponent = s.exponent; row = s.row } };

    ghost invariant = { λ s. AreRowNumbers (record { exponent = s.exponent; row = s.row }) };
}

// The size of a table.
fn size_of(exponent: u32) -> u32
    requires { exponent ≤ MAX_EXPONENT }
    ensures { result ≡ 2 ^ exponent }
{
    1 << exponent
}

impl Row {
    /// The command with the exponent of the table's size and the number of the row, from 1.
    pub fn new(exponent: u32, row: u32) -> Row
        requires { AreRowNumbers (record { exponent = exponent; row = row }) }
        ensures { result ≡ record { exponent = exponent; row = row } }
    {
        Row { exponent, row }
    }

    /// The command with the numbers that the words are, if they are two such.
    pub fn read(words: &mut Args<'_>) -> Option<Row>
        ensures { result ≡ row_of_words words.old }
    {
        let exponent = words.number(0, MAX_EXPONENT)?;
        let row = words.number(1, size_of(exponent))?;
        if words.is_at_end() {
            Some(Row { exponent, row })
        } else {
            None
        }
    }
}

/// A row of a Laver table, to be written.
#[derive(Debug, Drop)]
pub struct TableRow {
    table: Table,
    row: u32,
}

impl Model for TableRow {
    ghost use Rattle.std.specs.Prelude.{List, ℕ, length};
    ghost use Rattle.laver_table.specs.Table.{IsUpTo, row_of};

    ghost Value = { List ℕ };

    ghost view = { λ s. row_of s.table s.row };

    ghost invariant = { λ s. IsUpTo (length s.table) s.row };
}

impl TableRow {
    // Gives the row, with the counter of a ledger.
    fn put_counted<K: Sink, L: Ledger>(&self, sink: &mut K, blank: Blank) -> Result<(), Failed>
        requires name { blank.name ≡ L.name }
        requires parts { blank.parts ≡ L.parts }
        requires shared { 0 < blank.parts }
        ensures took { Puts (K.taken sink.old) (K.taken sink.new) result (row_line self.now) }
        ensures cause { HasCause (K.faults sink.old) (K.faults sink.new) result }
    {
        let mut steps = Steps::<L>::new(blank);
        put_row(sink, &self.table, self.row, &mut steps)
    }

    // Gives the row as a line.
    fn put_line<K: Sink>(&self, sink: &mut K) -> Result<(), Failed>
        ensures took { Puts (K.taken sink.old) (K.taken sink.new) result (row_line self.now) }
        ensures cause { HasCause (K.faults sink.old) (K.faults sink.new) result }
    {
        self.put_counted::<K, Brand>(sink, Blank::new(1))
    }
}

impl Written for TableRow {
    ghost answer = { row_answer };

    fn status(&self) -> Status {
        Status::Done
    }

    fn put<K: Sink>(&self, sink: &mut K) -> Result<(), Failed> {
        self.put_line(sink)
    }
}

impl Task for Row {
    type Done = TableRow;

    ghost meaning = { row_meaning };

    fn reads(&self) -> bool {
        false
    }

    fn law_sound(&self) {}

    fn perform(&self, alloc: Global, _input: &[u8]) -> Result<Comes<TableRow>, AllocError> {
        let table = Table::build(alloc, self.exponent)?;
        Ok(Comes::Done(TableRow {
            table,
            row: self.row,
        }))
    }
}
