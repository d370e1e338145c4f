// A law of the definition of greatest common divisors. It is the contract of a function that does nothing.
ghost use Rattle.std.specs.Prelude.{◌≡◌, ℕ, ◌≤◌, List};
ghost use Rattle.braid_word.specs.Words.{Letter, IsOn, IsPositiveWord};
ghost use Rattle.braid_word.specs.Equivalence.{EquivalentOn};
ghost use Rattle.braid_gcd.specs.Divisors.{IsGreatest};
ghost use Rattle.braid_gcd.specs.NormalWords.{IsNormalWord, IsAnswerOf};

/// Two positive words have a greatest common left divisor on each number of strands that they are on, and two
/// such are equivalent there.
///
/// What `gcd` answers is the same for equivalent words, and its words are positive: so the divisor divides
/// both words by what is left of them. The law is the contract.
/// After F. A. Garside, The braid group and other groups, 1969.
pub fn law_greatest()
    ensures exists { (n : ℕ) → (u v : List Letter) → IsOn n u → IsOn n v → IsPositiveWord u → IsPositiveWord v
        → (g : List Letter) × IsGreatest n u v g }
    ensures unique { (n : ℕ) → (u v g h : List Letter) → IsGreatest n u v g → IsGreatest n u v h
        → EquivalentOn n g h }
    ensures positive { (n : ℕ) → (w : List Letter) → IsNormalWord n w → IsPositiveWord w }
    ensures one { (n : ℕ) → (u v s t g a b h c d : List Letter) → 2 ≤ n → EquivalentOn n u s
        → EquivalentOn n v t → IsAnswerOf n u v g a b → IsAnswerOf n s t h c d
        → (g ≡ h) × (a ≡ c) × (b ≡ d) }
{}
