ghost use Rattle.std.specs.Prelude.{◌≡◌, ◌+◌, ◌*◌, ◌≤◌, OnOk, drop, length};
ghost use Rattle.std.specs.List.{flat_map};
ghost use Rattle.wb_base.specs.Streams.{HasCause, Puts};
ghost use Rattle.laver_table.specs.Table.{row_of, IsUpTo};
ghost use Rattle.wb_base.specs.Numbers.{spaced_number};
ghost use Rattle.laver_table.specs.TableText.{row_line, table_text};

use crate::table::Table;
use std::sync::ledger::Ledger;
use wb_base::{Failed, Sink, Steps, give_all, put_number, put_numbered};

// Gives the entries of a row from the second on, each after a space.
fn put_rest<K: Sink, L: Ledger>(
    sink: &mut K,
    table: &Table,
    p: u32,
    steps: &mut Steps<L>,
) -> Result<(), Failed>
    requires { IsUpTo (length table.now) p }
    ensures took { Puts (K.taken sink.old) (K.taken sink.new) result
        (flat_map spaced_number (drop 1 (row_of table.now p))) }
    ensures cause { HasCause (K.faults sink.old) (K.faults sink.new) result }
    ensures waits { K.waiting sink.new
        ≤ K.waiting sink.old + length (flat_map spaced_number (drop 1 (row_of table.now p))) }
    ensures counted { OnOk result (steps.new + 1 ≡ steps.old + length table.now) }
    ensures at_most { steps.new + 1 ≤ steps.old + length table.now }
{
    for k in 0..table.size() - 1 {
        let entry = table.product(p, k + 2, steps);
        put_numbered(sink, b" ", u64::from(entry))?;
    }
    Ok(())
}

/// Gives row p as a line: its entries with one space between them, and LF. It makes a step for each entry.
pub fn put_row<K: Sink, L: Ledger>(
    sink: &mut K,
    table: &Table,
    p: u32,
    steps: &mut Steps<L>,
) -> Result<(), Failed>
    requires { IsUpTo (length table.now) p }
    ensures took { Puts (K.taken sink.old) (K.taken sink.new) result (row_line (row_of table.now p)) }
    ensures cause { HasCause (K.faults sink.old) (K.faults sink.new) result }
    ensures waits { K.waiting sink.new ≤ K.waiting sink.old + length (row_line (row_of table.now p)) }
    ensures counted { OnOk result (steps.new ≡ steps.old + length table.now) }
    ensures at_most { steps.new ≤ steps.old + length table.now }
{
    let first = table.product(p, 1, steps);
    put_number(sink, u64::from(first))?;
    put_rest(sink, table, p, steps)?;
    give_all(sink, b"\n")
}

/// Gives all rows as lines, from row 1 on. It makes a step for each entry.
pub fn put_table<K: Sink, L: Ledger>(
    sink: &mut K,
    table: &Table,
    steps: &mut Steps<L>,
) -> Result<(), Failed>
    ensures took { Puts (K.taken sink.old) (K.taken sink.new) result (table_text table.now) }
    ensures cause { HasCause (K.faults sink.old) (K.faults sink.new) result }
    ensures waits { K.waiting sink.new ≤ K.waiting sink.old + length (table_text table.now) }
    ensures counted { OnOk result (steps.new ≡ steps.old + length table.now * length table.now) }
    ensures at_most { steps.new ≤ steps.old + length table.now * length table.now }
{
    for k in 0..table.size() {
        put_row(sink, table, k + 1, steps)?;
    }
    Ok(())
}
