ghost use Rattle.std.specs.Prelude.{◌≡◌, ◌<◌, ◌≤◌, ◌↔◌, List, length, IsTrue, IsSome, IfSome, Some, slice_get};
ghost use Rattle.braid_word.specs.Words.{Letter};
ghost use Rattle.braid_word.specs.Equivalence.{EquivalentOn};
ghost use Rattle.garside_form.specs.NormalForms.{Form, form, IsNormal, IsFormOf};
ghost use Rattle.wb_base.specs.Numbers.{signed_text};
ghost use Rattle.garside_form.specs.NormalText.{power_text};

use perm_braid::Perm;
use std::marker::Model;

/// A braid in left greedy normal form: a power of the half turn, and then simple braids.
///
/// After Garside, The braid group and other groups, and Epstein and others, Word Processing in Groups.
#[derive(Debug, Drop)]
pub struct NormalForm {
    strands: u32,
    delta: i32,
    factors: Vec<Perm>,
}

impl Model for NormalForm {
    ghost use Rattle.std.specs.Prelude.{◌≤◌};
    ghost use Rattle.garside_form.specs.NormalForms.{Form, form, IsNormal};

    ghost Value = { Form };

    ghost view = { λ f. form f.strands f.delta f.factors.items };

    ghost invariant = { λ f. (2 ≤ f.strands) × (f.strands ≤ 64) × IsNormal f.strands f.factors.items };
}

impl NormalForm {
    /// The normal form of these parts.
    pub(crate) fn of(strands: u32, delta: i32, factors: Vec<Perm>) -> NormalForm
        requires low { 2 ≤ strands }
        requires high { strands ≤ 64 }
        requires normal { IsNormal strands factors.items }
        ensures { result ≡ form strands delta factors.items }
    {
        NormalForm {
            strands,
            delta,
            factors,
        }
    }

    /// The number of strands.
    pub fn strands(&self) -> u32
        ensures value { result ≡ self.now.strands }
        ensures low { 2 ≤ result }
        ensures high { result ≤ 64 }
        ensures normal { IsNormal self.now.strands self.now.factors }
    {
        self.strands
    }

    /// The power of the half turn.
    pub fn delta(&self) -> i32
        ensures { result ≡ self.now.delta }
    {
        self.delta
    }

    /// The number of simple braids after the power of the half turn.
    pub fn factor_count(&self) -> usize
        ensures { result ≡ length self.now.factors }
    {
        self.factors.len()
    }

    /// The simple braid at this place after the power of the half turn, counted from 0; `None` exactly past
    /// the end.
    pub fn factor_at(&self, k: usize) -> Option<&Perm>
        ensures variant { IsSome result ↔ (k < length self.now.factors) }
        ensures value { IfSome result (λ p. slice_get self.now.factors k ≡ Some p.now) }
    {
        self.factors.get(k)
    }

    // Whether the power of the half turn is negative, and its size.
    pub(crate) fn signed_delta(&self) -> (bool, u32)
        ensures { power_text self.now.delta ≡ signed_text result.0 result.1 }
    {
        (self.delta < 0, self.delta.unsigned_abs())
    }

    // The simple braids after the power of the half turn.
    pub(crate) fn factors(&self) -> &[Perm]
        ensures { result.now ≡ self.now.factors }
    {
        &self.factors
    }
}

// Whether both are one list.
fn same_factors(a: &[Perm], b: &[Perm]) -> bool
    ensures { IsTrue result ↔ (a.now ≡ b.now) }
{
    if a.len() != b.len() {
        return false;
    }
    for k in 0..a.len() {
        if !a[k].same(&b[k]) {
            return false;
        }
    }
    true
}

// Whether both have one power and one list of factors.
fn same_parts(a: &NormalForm, b: &NormalForm) -> bool
    ensures exact { IsTrue result ↔ ((a.now.delta ≡ b.now.delta) × (a.now.factors ≡ b.now.factors)) }
    ensures low { 2 ≤ a.now.strands }
{
    a.delta == b.delta && same_factors(&a.factors, &b.factors)
}

/// Whether both normal forms are one.
///
/// For the normal forms of two words on one number of strands the answer is true exactly where the words are
/// equivalent there. It takes no memory.
pub fn same(a: &NormalForm, b: &NormalForm) -> bool
    requires strands { a.now.strands ≡ b.now.strands }
    ensures exact { IsTrue result ↔ ((a.now.delta ≡ b.now.delta) × (a.now.factors ≡ b.now.factors)) }
    ensures equivalent { (u v : List Letter) → IsFormOf a.now u → IsFormOf b.now v
        → (IsTrue result ↔ EquivalentOn a.now.strands u v) }
{
    same_parts(a, b)
}
