// How a table grows: the level of the next size, from the levels below it.
ghost use Rattle.std.specs.Prelude.{◌≡◌, ℕ, ◌+◌, ◌^◌, ◌<◌, ◌≤◌, IfOk, length};
ghost use Rattle.laver_table.specs.Table.{IsUpTo};
ghost use Rattle.laver_table.specs.Period.{IsPeriod, IsThreshold};
ghost use Rattle.laver_table.specs.Levels.{AreDoublings, IsLevel, AreLevels};
ghost use Rattle.laver_table.specs.declared.TheConstants.{MAX_EXPONENT};

use crate::levels::{
    Doubling, column_within, entry_in, halved, period_after, period_in, table_size,
};
use std::alloc::{AllocError, Global};

// How many entries of row p of size 2M are no larger than M, from column 1 on.
//
// Each entry is found from the one before it, in the row of that number, whose doubling is already there.
fn threshold_of(lower: &[Vec<Doubling>], level: &[Doubling], p: u32) -> u32
    requires few { length lower.now < MAX_EXPONENT }
    requires lower { AreLevels lower.now }
    requires level { AreDoublings (2 ^ length lower.now) level.now }
    requires row { IsUpTo (2 ^ length lower.now) p }
    requires known { p + length level.now ≡ 2 ^ length lower.now }
    ensures { (period : ℕ) → IsPeriod (2 ^ length lower.now) p period
        → IsThreshold (2 ^ length lower.now) p period result }
{
    let half = table_size(lower);
    let mut threshold = 0;
    let mut entry = p + 1;
    while entry <= half {
        threshold += 1;
        let column = column_within(period_after(level, half, entry), p + 1);
        let (column, added) = halved(level, half, entry, column);
        entry = entry_in(lower, entry, column) + added;
    }
    threshold
}

// The level of the next size.
fn next_level(alloc: Global, lower: &[Vec<Doubling>]) -> Result<Vec<Doubling>, AllocError>
    requires few { length lower.now < MAX_EXPONENT }
    requires lower { AreLevels lower.now }
    ensures { IfOk result (λ level. IsLevel (2 ^ length lower.now) level.items) }
{
    let half = table_size(lower);
    let mut level = Vec::with_capacity(alloc, half as usize)?;
    for before in 0..half {
        let p = half - before;
        let period = period_in(lower, p);
        let threshold = threshold_of(lower, &level, p);
        level.push(Doubling { period, threshold })?;
    }
    Ok(level)
}

/// The levels of the table of size 2^n.
pub(crate) fn levels_of(alloc: Global, n: u32) -> Result<Vec<Vec<Doubling>>, AllocError>
    requires { n ≤ MAX_EXPONENT }
    ensures count { IfOk result (λ levels. length levels.items ≡ n) }
    ensures levels { IfOk result (λ levels. AreLevels levels.items) }
{
    let mut levels = Vec::with_capacity(alloc, n as usize)?;
    for _ in 0..n {
        let level = next_level(alloc, &levels)?;
        levels.push(level)?;
    }
    Ok(levels)
}
