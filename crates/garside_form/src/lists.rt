ghost use Rattle.std.specs.Prelude.{◌≡◌, ℕ, [], ◌∷◌, ◌++◌, map, reverse, IfOk, OnOk, length};
ghost use Rattle.perm_braid.specs.Arrangements.{IsOrder, flip};
ghost use Rattle.garside_form.specs.FactorLists.{EachOrder, AreGreedy, BeginsShort, KeepsFactors, IsReady, IsTakenIn, turned_factors};

use perm_braid::{Perm, greedy_pair};
use std::alloc::AllocError;

/// Puts the simple braids of a stack behind those of a list, the last of the stack first, and leaves the stack
/// empty.
pub fn put_back(list: &mut Vec<Perm>, stack: &mut Vec<Perm>) -> Result<(), AllocError>
    ensures list { OnOk result (list.new.items ≡ list.old.items ++ reverse stack.old.items) }
    ensures stack { OnOk result (stack.new.items ≡ []) }
{
    while let Some(factor) = stack.pop() {
        list.push(factor)?;
    }
    Ok(())
}

// The same, with each of the stack turned by half a turn.
fn put_back_turned(list: &mut Vec<Perm>, stack: &mut Vec<Perm>) -> Result<(), AllocError>
    ensures list { OnOk result (list.new.items ≡ list.old.items ++ map flip (reverse stack.old.items)) }
    ensures stack { OnOk result (stack.new.items ≡ []) }
{
    while let Some(factor) = stack.pop() {
        let mut turned = factor;
        turned.flip();
        list.push(turned)?;
    }
    Ok(())
}

/// Takes one more simple braid in at the end of a list, and answers whether a half turn came out, which then
/// stands behind the list. `stack` is empty before and after it.
///
/// The pass goes from the end to the front, and ends where nothing moves or the factor is the half turn: what
/// is behind this one stands flipped before it.
pub(crate) fn take_in(
    list: &mut Vec<Perm>,
    carry: Perm,
    stack: &mut Vec<Perm>,
) -> Result<bool, AllocError>
    requires empty { stack.old.items ≡ [] }
    requires ready { IsReady (length carry) list.old.items }
    requires order { IsOrder (length carry) carry }
    ensures taken { IfOk result
        (λ turned. IsTakenIn (length carry) (list.old.items ++ carry ∷ []) list.new.items turned) }
    ensures empty { OnOk result (stack.new.items ≡ []) }
{
    let mut carry = carry;
    'passing: while !carry.is_delta() {
        let Some(last) = list.pop() else {
            list.push(carry)?;
            put_back(list, stack)?;
            return Ok(false);
        };
        let mut first = last;
        let moved = greedy_pair(&mut first, &mut carry);
        if !moved {
            list.push(first)?;
            list.push(carry)?;
            put_back(list, stack)?;
            return Ok(false);
        }
        stack.push(carry)?;
        carry = first;
    }
    put_back_turned(list, stack)?;
    Ok(true)
}

/// Takes identities off the end of a greedy list.
pub(crate) fn drop_identities(list: &mut Vec<Perm>) -> Result<(), AllocError>
    ensures ready { (n : ℕ) → EachOrder n list.old.items → AreGreedy n list.old.items
        → BeginsShort n list.old.items → OnOk result (IsReady n list.new.items) }
    ensures keeps { (n : ℕ) → EachOrder n list.old.items
        → OnOk result (KeepsFactors n list.old.items list.new.items) }
{
    while let Some(last) = list.pop() {
        if !last.is_identity() {
            list.push(last)?;
            return Ok(());
        }
    }
    Ok(())
}

// Turns each simple braid by half a turn.
fn flip_each(list: &mut Vec<Perm>)
    ensures { list.new.items ≡ map flip list.old.items }
{
    for k in 0..list.len() {
        list[k].flip();
    }
}

/// Turns each simple braid by half a turn where `odd` holds.
pub(crate) fn turn_factors(list: &mut Vec<Perm>, odd: bool)
    ensures { list.new.items ≡ turned_factors odd list.old.items }
{
    if odd {
        flip_each(list);
    }
}
