// The command `laver n`.
ghost use Rattle.std.specs.Prelude.{◌≡◌, ◌<◌, ◌≤◌};
ghost use Rattle.wb_base.specs.Streams.{HasCause, Puts};
ghost use Rattle.laver_table.specs.TableText.{table_text};
ghost use Rattle.wb_terms.specs.Laver.{table_answer, laver_meaning, laver_of};
ghost use Rattle.wb_terms.specs.declared.TheConstants.{MAX_PRINTED};

use crate::MAX_PRINTED;
use laver_table::{Table, put_table};
use std::alloc::{AllocError, Global};
use std::marker::{Brand, Model};
use std::sync::ledger::{Blank, Ledger};
use wb_base::{Failed, Sink, Status, Steps};
use wb_command::{Args, Comes, Task, Written};

/// `laver n`: gives the Laver table of size 2^n.
#[derive(Debug, Drop)]
pub struct Laver {
    exponent: u32,
}

impl Model for Laver {
    ghost use Rattle.std.specs.Prelude.{ℕ, ◌≤◌};
    ghost use Rattle.wb_terms.specs.declared.TheConstants.{MAX_PRINTED};

    ghost Value = { ℕ };

    ghost view = { λ s. s.exponent };

    ghost invariant = { λ s. s.exponent ≤ MAX_PRINTED };
}

impl Laver {
    /// The command with the exponent of the table's size.
    pub fn new(exponent: u32) -> Laver
        requires { exponent ≤ MAX_PRINTED }
        ensures { result ≡ exponent }
    {
        Laver { exponent }
    }

    /// The command with the number that the words are, if they are one.
    pub fn read(words: &mut Args<'_>) -> Option<Laver>
        ensures { result ≡ laver_of words.old }
    {
        let exponent = words.number(0, MAX_PRINTED)?;
        if words.is_at_end() {
            Some(Laver { exponent })
        } else {
            None
        }
    }
}

/// A Laver table, to be written whole.
#[derive(Debug, Drop)]
pub struct WholeTable {
    table: Table,
}

impl Model for WholeTable {
    ghost use Rattle.std.specs.Prelude.{List, ℕ};

    ghost Value = { List (List ℕ) };

    ghost view = { λ s. s.table };
}

// Gives a table, with the counter of a ledger.
fn put_counted<K: Sink, L: Ledger>(sink: &mut K, table: &Table, blank: Blank) -> Result<(), Failed>
    requires name { blank.name ≡ L.name }
    requires parts { blank.parts ≡ L.parts }
    requires shared { 0 < blank.parts }
    ensures took { Puts (K.taken sink.old) (K.taken sink.new) result (table_text table.now) }
    ensures cause { HasCause (K.faults sink.old) (K.faults sink.new) result }
{
    let mut steps = Steps::<L>::new(blank);
    put_table(sink, table, &mut steps)
}

// Gives a table, a line for each row.
fn put_whole<K: Sink>(sink: &mut K, table: &Table) -> Result<(), Failed>
    ensures took { Puts (K.taken sink.old) (K.taken sink.new) result (table_text table.now) }
    ensures cause { HasCause (K.faults sink.old) (K.faults sink.new) result }
{
    put_counted::<K, Brand>(sink, table, Blank::new(1))
}

impl Written for WholeTable {
    ghost answer = { table_answer };

    fn status(&self) -> Status {
        Status::Done
    }

    fn put<K: Sink>(&self, sink: &mut K) -> Result<(), Failed> {
        put_whole(sink, &self.table)
    }
}

impl Task for Laver {
    type Done = WholeTable;

    ghost meaning = { laver_meaning };

    fn reads(&self) -> bool {
        false
    }

    fn law_sound(&self) {}

    fn perform(&self, alloc: Global, _input: &[u8]) -> Result<Comes<WholeTable>, AllocError> {
        let table = Table::build(alloc, self.exponent)?;
        Ok(Comes::Done(WholeTable { table }))
    }
}
