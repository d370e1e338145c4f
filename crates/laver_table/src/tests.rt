// Worked rows, the text of tables, and the equations on a larger table.
ghost use Rattle.std.specs.Prelude.{◌≡◌, ◌<◌, ◌≤◌};

use crate::growth::levels_of;
use crate::{MAX_EXPONENT, Table, law_doubling, law_one_table, put_row, put_table};
use std::alloc::Global;
use std::marker::Brand;
use std::sync::ledger::{Blank, Ledger};
use std::test::Fail;
use wb_base::{MemSink, Steps};

// The text of the table of size 2^n.
fn text_of_table<L: Ledger>(alloc: Global, blank: Blank, n: u32) -> Result<Vec<u8>, Fail>
    requires name { blank.name ≡ L.name }
    requires parts { blank.parts ≡ L.parts }
    requires shared { 0 < blank.parts }
    requires small { n ≤ 14 }
{
    let mut steps = Steps::<L>::new(blank);
    let table = Table::build(alloc, n)?;
    let mut sink = MemSink::new(alloc, 1_000, 7, &[])?;
    put_table(&mut sink, &table, &mut steps)?;
    Ok(sink.bytes().to_vec(alloc)?)
}

#[test]
fn small_tables_are_written_whole(rt: HostRuntime) -> Result<(), Fail> {
    let cases: [(u32, &[u8]); 4] = [
        (0, b"1\n"),
        (1, b"2 2\n1 2\n"),
        (2, b"2 4 2 4\n3 4 3 4\n4 4 4 4\n1 2 3 4\n"),
        (
            3,
            b"2 4 6 8 2 4 6 8\n3 4 7 8 3 4 7 8\n4 8 4 8 4 8 4 8\n5 6 7 8 5 6 7 8\n6 8 6 8 6 8 6 8\n7 8 7 8 7 8 7 8\n8 8 8 8 8 8 8 8\n1 2 3 4 5 6 7 8\n",
        ),
    ];
    for (n, want) in cases {
        let text = text_of_table::<Brand>(rt.alloc(), Blank::new(1), n)?;
        assert_eq!(rt; text.as_slice(), want, "at {n}");
    }
    Ok(())
}

// The text of row p of the table of size 2^n, or nothing where there is no such row.
fn text_of_row<L: Ledger>(alloc: Global, blank: Blank, n: u32, p: u32) -> Result<Vec<u8>, Fail>
    requires name { blank.name ≡ L.name }
    requires parts { blank.parts ≡ L.parts }
    requires shared { 0 < blank.parts }
    requires small { n ≤ 14 }
{
    let mut steps = Steps::<L>::new(blank);
    let table = Table::build(alloc, n)?;
    let mut sink = MemSink::new(alloc, 1_000, 7, &[])?;
    if 1 <= p && p <= table.size() {
        put_row(&mut sink, &table, p, &mut steps)?;
    }
    Ok(sink.bytes().to_vec(alloc)?)
}

#[test]
fn a_row_is_written_as_a_line(rt: HostRuntime) -> Result<(), Fail> {
    let cases: [(u32, u32, &[u8]); 4] = [
        (0, 1, b"1\n"),
        (2, 4, b"1 2 3 4\n"),
        (3, 2, b"3 4 7 8 3 4 7 8\n"),
        (4, 1, b"2 12 14 16 2 12 14 16 2 12 14 16 2 12 14 16\n"),
    ];
    for (n, p, want) in cases {
        let text = text_of_row::<Brand>(rt.alloc(), Blank::new(1), n, p)?;
        assert_eq!(rt; text.as_slice(), want, "at {n}, {p}");
    }
    Ok(())
}

// The periods of the rows of the table of size 2^n, the first one first.
fn periods(alloc: Global, n: u32) -> Result<Vec<u32>, Fail>
    requires { n ≤ 14 }
{
    let table = Table::build(alloc, n)?;
    let mut periods = Vec::new(alloc);
    for before in 0..table.size() {
        periods.push(table.period(before + 1))?;
    }
    Ok(periods)
}

#[test]
fn a_period_is_the_number_of_different_entries(rt: HostRuntime) -> Result<(), Fail> {
    let cases: [(u32, &[u32]); 4] = [
        (0, &[1]),
        (1, &[1, 2]),
        (2, &[2, 2, 1, 4]),
        (3, &[4, 4, 2, 4, 2, 2, 1, 8]),
    ];
    for (n, want) in cases {
        let periods = periods(rt.alloc(), n)?;
        assert_eq!(rt; periods.as_slice(), want, "at {n}");
    }
    Ok(())
}

// The number of places at which the table of size 2^n doesn't obey the equations.
fn wrong_entries<L: Ledger>(alloc: Global, blank: Blank, n: u32) -> Result<u32, Fail>
    requires name { blank.name ≡ L.name }
    requires parts { blank.parts ≡ L.parts }
    requires shared { 0 < blank.parts }
    requires small { n ≤ 14 }
{
    let mut steps = Steps::<L>::new(blank);
    let table = Table::build(alloc, n)?;
    let mut wrong: u32 = 0;
    for p in 1..table.size() {
        for q in 1..table.size() {
            let entry = table.product(p, q, &mut steps);
            let next = table.product(p, q + 1, &mut steps);
            if next != table.product(entry, p + 1, &mut steps) || entry <= p {
                wrong = wrong.saturating_add(1);
            }
        }
        let first = table.product(p, 1, &mut steps);
        if first != p + 1 || table.product(table.size(), p, &mut steps) != p {
            wrong = wrong.saturating_add(1);
        }
    }
    Ok(wrong)
}

#[test]
fn the_table_of_size_256_obeys_the_equations(rt: HostRuntime) -> Result<(), Fail> {
    assert_eq!(rt; wrong_entries::<Brand>(rt.alloc(), Blank::new(1), 8)?, 0);
    Ok(())
}

// Row p of the table of size 2^n, or nothing where there is no such row.
fn entries_of_row<L: Ledger>(alloc: Global, blank: Blank, n: u32, p: u32) -> Result<Vec<u32>, Fail>
    requires name { blank.name ≡ L.name }
    requires parts { blank.parts ≡ L.parts }
    requires shared { 0 < blank.parts }
    requires small { n ≤ 14 }
{
    let mut steps = Steps::<L>::new(blank);
    let table = Table::build(alloc, n)?;
    let mut entries = Vec::new(alloc);
    if 1 <= p && p <= table.size() {
        for before in 0..table.size() {
            entries.push(table.product(p, before + 1, &mut steps))?;
        }
    }
    Ok(entries)
}

#[test]
fn rows_of_the_largest_table_are_as_known(rt: HostRuntime) -> Result<(), Fail> {
    law_one_table();
    law_doubling();
    let cases: [(u32, u32, u32); 2] = [(8_191, 8_192, 16_384), (16_383, 16_384, 16_384)];
    for (p, odd, even) in cases {
        let row = entries_of_row::<Brand>(rt.alloc(), Blank::new(1), MAX_EXPONENT, p)?;
        assert_eq!(rt; row.len(), 16_384);
        for (k, entry) in row.iter().enumerate() {
            let want = if k % 2 == 0 { odd } else { even };
            assert_eq!(rt; *entry, want, "in row {p}");
        }
    }
    let last = entries_of_row::<Brand>(rt.alloc(), Blank::new(1), MAX_EXPONENT, 16_384)?;
    assert_eq!(rt; last.len(), 16_384);
    for (k, entry) in last.iter().enumerate() {
        assert_eq!(rt; *entry as usize, k + 1);
    }
    Ok(())
}

#[test]
fn thresholds_of_sizes_4_and_8_are_as_known(rt: HostRuntime) -> Result<(), Fail> {
    let levels = levels_of(rt.alloc(), 4)?;
    assert_eq!(rt; levels[2].len(), 4);
    for (doubling, want) in levels[2].iter().zip([0, 1, 2, 2]) {
        assert_eq!(rt; doubling.threshold, want, "in size 4, from row 4 up");
    }
    let first = levels[3].last().map(|doubling| doubling.threshold);
    assert_eq!(rt; first, Some(1), "of row 1 of size 8");
    Ok(())
}

#[test]
fn the_period_of_row_1_grows_as_known(rt: HostRuntime) -> Result<(), Fail> {
    let known: [u32; 15] = [1, 1, 2, 4, 4, 8, 8, 8, 8, 16, 16, 16, 16, 16, 16];
    for n in 0..15 {
        let table = Table::build(rt.alloc(), n)?;
        assert_eq!(rt; table.period(1), known[n as usize], "at {n}");
    }
    Ok(())
}
