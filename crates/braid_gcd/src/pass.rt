ghost use Rattle.std.specs.Prelude.{◌≡◌, [], ◌∷◌, reverse, length, OnOk};
ghost use Rattle.perm_braid.specs.Arrangements.{IsOrder};
ghost use Rattle.garside_form.specs.FactorLists.{EachOrder, AreGreedy};
ghost use Rattle.braid_gcd.specs.Rounds.{IsPutIn};

use garside_form::put_back;
use perm_braid::{Perm, greedy_pair};
use std::alloc::AllocError;

/// Puts a simple braid in front of a greedy list, whose first stands last in the vector. `stack` is empty
/// before and after it.
///
/// The pass goes from the front to the end, and stops where nothing moves or nothing is left of the factor.
pub(crate) fn put_in(
    list: &mut Vec<Perm>,
    carry: Perm,
    stack: &mut Vec<Perm>,
) -> Result<(), AllocError>
    requires empty { stack.old.items ≡ [] }
    requires order { IsOrder (length carry) carry }
    requires orders { EachOrder (length carry) (reverse list.old.items) }
    requires greedy { AreGreedy (length carry) (reverse list.old.items) }
    ensures put { OnOk result
        (IsPutIn (length carry) (carry ∷ reverse list.old.items) (reverse list.new.items)) }
    ensures empty { OnOk result (stack.new.items ≡ []) }
{
    let mut carry = carry;
    'passing: while !carry.is_identity() {
        let Some(next) = list.pop() else {
            list.push(carry)?;
            put_back(list, stack)?;
            return Ok(());
        };
        let mut second = next;
        let moved = greedy_pair(&mut carry, &mut second);
        if !moved {
            list.push(second)?;
            list.push(carry)?;
            put_back(list, stack)?;
            return Ok(());
        }
        stack.push(carry)?;
        carry = second;
    }
    put_back(list, stack)?;
    Ok(())
}
