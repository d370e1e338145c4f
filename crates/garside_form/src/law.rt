// A law of the definition of normal forms. It is the contract of a function that does nothing.
ghost use Rattle.std.specs.Prelude.{◌≡◌, ◌≤◌, ◌↔◌, List};
ghost use Rattle.braid_word.specs.Words.{Letter};
ghost use Rattle.braid_word.specs.Equivalence.{EquivalentOn};
ghost use Rattle.garside_form.specs.NormalForms.{Form, IsFormOf};

/// A word has at most one normal form on a number of strands, and two words have one normal form exactly
/// where they are equivalent there.
///
/// The law is the contract. After Epstein and others, Word Processing in Groups, chapter 9.
pub fn law_one_form()
    ensures one { (f g : Form) → (u : List Letter) → 2 ≤ f.strands → f.strands ≡ g.strands
        → IsFormOf f u → IsFormOf g u → f ≡ g }
    ensures equivalent { (f g : Form) → (u v : List Letter) → 2 ≤ f.strands → f.strands ≡ g.strands
        → IsFormOf f u → IsFormOf g v → ((f ≡ g) ↔ EquivalentOn f.strands u v) }
{}
