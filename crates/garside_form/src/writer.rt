ghost use Rattle.std.specs.Prelude.{◌+◌, ◌<◌, ◌≤◌, ◌++◌, codes, length};
ghost use Rattle.std.specs.List.{flat_map};
ghost use Rattle.wb_base.specs.Lines.{line};
ghost use Rattle.wb_base.specs.Numbers.{signed_text};
ghost use Rattle.wb_base.specs.Streams.{HasCause, Puts};
ghost use Rattle.wb_base.specs.Numbers.{spaced_number};
ghost use Rattle.garside_form.specs.NormalText.{factor_line, normal_text};

use crate::form::NormalForm;
use perm_braid::Perm;
use wb_base::{Failed, Sink, give_all, put_numbered, put_signed};

// Gives the entries of an arrangement, each behind a space.
fn put_entries<K: Sink>(sink: &mut K, factor: &Perm) -> Result<(), Failed>
    ensures took { Puts (K.taken sink.old) (K.taken sink.new) result (flat_map spaced_number factor.now) }
    ensures cause { HasCause (K.faults sink.old) (K.faults sink.new) result }
    ensures waits { K.waiting sink.new ≤ K.waiting sink.old + length (flat_map spaced_number factor.now) }
{
    for k in 0..factor.strands() {
        let entry = factor.at(k + 1);
        put_numbered(sink, b" ", u64::from(entry))?;
    }
    Ok(())
}

// Gives a factor as a line.
fn put_factor<K: Sink>(sink: &mut K, factor: &Perm) -> Result<(), Failed>
    ensures took { Puts (K.taken sink.old) (K.taken sink.new) result (factor_line factor.now) }
    ensures cause { HasCause (K.faults sink.old) (K.faults sink.new) result }
    ensures waits { K.waiting sink.new ≤ K.waiting sink.old + length (factor_line factor.now) }
{
    give_all(sink, b"factor")?;
    put_entries(sink, factor)?;
    give_all(sink, b"\n")
}

// Gives the lines of factors.
fn put_factors<K: Sink>(sink: &mut K, factors: &[Perm]) -> Result<(), Failed>
    ensures took { Puts (K.taken sink.old) (K.taken sink.new) result (flat_map factor_line factors.now) }
    ensures cause { HasCause (K.faults sink.old) (K.faults sink.new) result }
    ensures waits { K.waiting sink.new ≤ K.waiting sink.old + length (flat_map factor_line factors.now) }
{
    for k in 0..factors.len() {
        put_factor(sink, &factors[k])?;
    }
    Ok(())
}

// Gives the power of the half turn as a line.
fn put_delta<K: Sink>(sink: &mut K, negative: bool, size: u32) -> Result<(), Failed>
    ensures took { Puts (K.taken sink.old) (K.taken sink.new) result
        (line (codes "delta " ++ signed_text negative size)) }
    ensures cause { HasCause (K.faults sink.old) (K.faults sink.new) result }
    ensures waits { K.waiting sink.new ≤ K.waiting sink.old
        + length (line (codes "delta " ++ signed_text negative size)) }
{
    give_all(sink, b"delta ")?;
    put_signed(sink, negative, u64::from(size))?;
    give_all(sink, b"\n")
}

/// Gives a normal form as lines: the power of the half turn, and then the arrangement of each factor.
pub fn put_normal<K: Sink>(sink: &mut K, normal: &NormalForm) -> Result<(), Failed>
    ensures took { Puts (K.taken sink.old) (K.taken sink.new) result (normal_text normal.now) }
    ensures cause { HasCause (K.faults sink.old) (K.faults sink.new) result }
    ensures waits { K.waiting sink.new ≤ K.waiting sink.old + length (normal_text normal.now) }
{
    let (negative, size) = normal.signed_delta();
    put_delta(sink, negative, size)?;
    put_factors(sink, normal.factors())
}
