ghost use Rattle.std.specs.Prelude.{◌≡◌, ℕ, ◌+◌, ◌^◌, ◌≤◌, List, IfOk, length};
ghost use Rattle.laver_table.specs.Table.{entry, IsUpTo, IsLaver, IsComputed, ExceedsRows};
ghost use Rattle.laver_table.specs.Form.{period_of, IsPeriodic};
ghost use Rattle.laver_table.specs.declared.TheConstants.{MAX_EXPONENT};

use crate::growth::levels_of;
use crate::levels::{Doubling, period_in, product_in, table_size};
use std::alloc::{AllocError, Global};
use std::marker::Model;
use std::sync::ledger::Ledger;
use wb_base::Steps;

/// A Laver table, the list of its rows.
///
/// Of each row of each smaller size it keeps the period and the threshold, and no entry.
#[derive(Debug, Drop)]
pub struct Table {
    levels: Vec<Vec<Doubling>>,
}

impl Model for Table {
    ghost use Rattle.std.specs.Prelude.{ℕ, ◌^◌, ◌≤◌, List, length};
    ghost use Rattle.laver_table.specs.Product.{product_rows};
    ghost use Rattle.laver_table.specs.Levels.{AreLevels};
    ghost use Rattle.laver_table.specs.declared.TheConstants.{MAX_EXPONENT};

    ghost Value = { List (List ℕ) };

    ghost view = { λ s. product_rows (2 ^ length s.levels.items) };

    ghost invariant = { λ s. (length s.levels.items ≤ MAX_EXPONENT) × AreLevels s.levels.items };
}

impl Table {
    /// The Laver table of size 2^n.
    ///
    /// It is the only left-distributive table of that size whose column 1 has 2, 3, .., 2^n, 1. After
    /// Laver, On the algebra of elementary embeddings of a rank into itself.
    pub fn build(alloc: Global, n: u32) -> Result<Table, AllocError>
        requires { n ≤ MAX_EXPONENT }
        ensures laver { IfOk result (λ table. IsLaver n table) }
        ensures computed { IfOk result (λ table. IsComputed (2 ^ n) table) }
        ensures exceeding { IfOk result (λ table. ExceedsRows (2 ^ n) table) }
        ensures unique { IfOk result (λ table. (other : List (List ℕ)) → IsLaver n other → other ≡ table) }
    {
        Ok(Table {
            levels: levels_of(alloc, n)?,
        })
    }

    /// The number of rows, and of columns.
    pub fn size(&self) -> u32
        ensures rows { result ≡ length self.now }
        ensures laver { (n : ℕ) × IsLaver n self.now }
    {
        table_size(&self.levels)
    }

    /// The product of p and q, the entry in row p and column q. It counts as one step.
    pub fn product<L: Ledger>(&self, p: u32, q: u32, steps: &mut Steps<L>) -> u32
        requires row { IsUpTo (length self.now) p }
        requires column { IsUpTo (length self.now) q }
        ensures entry { result ≡ entry self.now p q }
        ensures up_to { IsUpTo (length self.now) result }
        ensures counted { steps.new ≡ steps.old + 1 }
    {
        steps.tick();
        product_in(&self.levels, p, q)
    }

    /// The number of different entries in row p, which repeats them.
    pub fn period(&self, p: u32) -> u32
        requires { IsUpTo (length self.now) p }
        ensures count { result ≡ period_of self.now p }
        ensures periodic { IsPeriodic (length self.now) self.now p result }
    {
        period_in(&self.levels, p)
    }
}
