// How the entries of a table are found from its periods and thresholds, level by level.
ghost use Rattle.std.specs.Prelude.{◌≡◌, ◌+◌, ◌-◌, ◌%◌, ◌^◌, ◌<◌, ◌≤◌, length};
ghost use Rattle.laver_table.specs.Product.{product};
ghost use Rattle.laver_table.specs.Table.{IsUpTo};
ghost use Rattle.laver_table.specs.Period.{IsFull, IsPeriod, IsInPeriod};
ghost use Rattle.laver_table.specs.Levels.{AreDoublings, AreLevels};
ghost use Rattle.laver_table.specs.declared.TheConstants.{MAX_EXPONENT};

/// How a row of size M becomes the row of the same number of size 2M.
#[derive(Clone, Copy, Debug)]
pub(crate) struct Doubling {
    /// The first column in which the row has M.
    pub period: u32,
    /// How many entries of this period stay; M is added to the others.
    pub threshold: u32,
}

/// The size of the table of these levels.
pub(crate) fn table_size(levels: &[Vec<Doubling>]) -> u32
    requires { length levels.now ≤ MAX_EXPONENT }
    ensures size { result ≡ 2 ^ length levels.now }
    ensures small { result ≤ 2 ^ MAX_EXPONENT }
    ensures full { IsFull result }
{
    1 << levels.len()
}

/// The column within the first period of a row that has the entry of this column.
pub(crate) fn column_within(period: u32, column: u32) -> u32
    requires some { 1 ≤ period }
    requires first { 1 ≤ column }
    ensures column { result ≡ (column - 1) % period + 1 }
    ensures within { result ≤ period }
{
    (column - 1) % period + 1
}

/// The period of row p of size 2M, where M is `half`: that of size M, or twice that.
pub(crate) fn period_after(level: &[Doubling], half: u32, p: u32) -> u32
    requires small { half ≤ 2 ^ MAX_EXPONENT }
    requires full { IsFull half }
    requires doublings { AreDoublings half level.now }
    requires row { IsUpTo half p }
    requires known { half < p + length level.now }
    ensures { IsPeriod (half + half) p result }
{
    let doubling = level[(half - p) as usize];
    if doubling.threshold < doubling.period {
        doubling.period
    } else {
        2 * doubling.period
    }
}

/// The column in which row p of size M, which is `half`, has the entry of this column of the first period of
/// size 2M, and what is added to it there.
pub(crate) fn halved(level: &[Doubling], half: u32, p: u32, column: u32) -> (u32, u32)
    requires small { half ≤ 2 ^ MAX_EXPONENT }
    requires full { IsFull half }
    requires doublings { AreDoublings half level.now }
    requires row { IsUpTo half p }
    requires known { half < p + length level.now }
    requires column { IsInPeriod (half + half) p column }
    ensures column { IsInPeriod half p result.0 }
    ensures entry { product (half + half) p column ≡ product half p result.0 + result.1 }
    ensures stays { result.1 ≤ half }
{
    let doubling = level[(half - p) as usize];
    if column <= doubling.threshold {
        (column, 0)
    } else if column <= doubling.period {
        (column, half)
    } else {
        (column - doubling.period, half)
    }
}

/// The entry of row p in a column of its first period.
///
/// A row above M of size 2M is the row of size M that is M before it, with M added.
pub(crate) fn entry_in(levels: &[Vec<Doubling>], p: u32, column: u32) -> u32
    requires few { length levels.now ≤ MAX_EXPONENT }
    requires levels { AreLevels levels.now }
    requires row { IsUpTo (2 ^ length levels.now) p }
    requires column { IsInPeriod (2 ^ length levels.now) p column }
    ensures { result ≡ product (2 ^ length levels.now) p column }
{
    let Some((level, lower)) = levels.split_last() else {
        return column;
    };
    let half = table_size(lower);
    if p == 2 * half {
        return column;
    }
    if p > half {
        return entry_in(lower, p - half, column) + half;
    }
    let (column, added) = halved(level, half, p, column);
    entry_in(lower, p, column) + added
}

/// The period of row p in the table of these levels.
pub(crate) fn period_in(levels: &[Vec<Doubling>], p: u32) -> u32
    requires few { length levels.now ≤ MAX_EXPONENT }
    requires levels { AreLevels levels.now }
    requires row { IsUpTo (2 ^ length levels.now) p }
    ensures { IsPeriod (2 ^ length levels.now) p result }
{
    let Some((level, lower)) = levels.split_last() else {
        return 1;
    };
    let half = table_size(lower);
    if p == 2 * half {
        return p;
    }
    if p > half {
        return level[(2 * half - p) as usize].period;
    }
    period_after(level, half, p)
}

/// The product of p and q in the table of these levels.
pub(crate) fn product_in(levels: &[Vec<Doubling>], p: u32, q: u32) -> u32
    requires few { length levels.now ≤ MAX_EXPONENT }
    requires levels { AreLevels levels.now }
    requires row { IsUpTo (2 ^ length levels.now) p }
    requires column { IsUpTo (2 ^ length levels.now) q }
    ensures { result ≡ product (2 ^ length levels.now) p q }
{
    entry_in(levels, p, column_within(period_in(levels, p), q))
}
