ghost use Rattle.std.specs.Prelude.{◌≡◌, ◌↔◌, ℕ, true, false, List, length, Some};
ghost use Rattle.ld_term.specs.Terms.{Term};
ghost use Rattle.ld_term.specs.Written.{Written};
ghost use Rattle.ld_term.specs.Tokens.{tokens_of, tokens_from};
ghost use Rattle.ld_term.specs.Grammar.{IsTermText, IsTerm, IsDefinitionText, IsDefinitionOf, IsFault};
ghost use Rattle.ld_term.specs.StrictTexts.{as_written, strict_text, strict_term_of};

/// A line is a text of one term at most, and of none where it has a fault.
///
/// The law is the contract; the body does nothing.
pub fn law_one_term(line: &[u8], strict: bool)
    ensures one { (t : Written) → (u : Written)
        → IsTermText strict (tokens_of (tokens_from strict 0 line.now)) t
        → IsTermText strict (tokens_of (tokens_from strict 0 line.now)) u → t ≡ u }
    ensures fault { (place : ℕ)
        → IsFault (IsTerm strict) (tokens_from strict 0 line.now) (length line.now) place → (t : Written)
        → IsTermText strict (tokens_of (tokens_from strict 0 line.now)) t → ⊥ }
{}

/// A line defines one name, at one place, as one term at most, and nothing where it has a fault.
///
/// The law is the contract; the body does nothing.
pub fn law_one_definition(line: &[u8])
    ensures one { (bytes other : List ℕ) → (at place : ℕ) → (t u : Written)
        → IsDefinitionText (tokens_of (tokens_from false 0 line.now)) bytes at t
        → IsDefinitionText (tokens_of (tokens_from false 0 line.now)) other place u
        → (bytes ≡ other) × (at ≡ place) × (t ≡ u) }
    ensures fault { (place : ℕ)
        → IsFault (λ tokens. (t : Written) × IsDefinitionOf tokens t) (tokens_from false 0 line.now)
        (length line.now) place
        → (t : Written) → IsDefinitionOf (tokens_of (tokens_from false 0 line.now)) t → ⊥ }
{}

/// The strict text of a term is a strict text of it, and of no other term; and the term of some bytes is the
/// one whose strict text they are.
///
/// The law is the contract; the body does nothing.
pub fn law_strict_text()
    ensures text { (t : Term)
        → IsTermText true (tokens_of (tokens_from true 0 (strict_text t))) (as_written t) }
    ensures one { (t : Term) → (u : Term) → strict_text t ≡ strict_text u → t ≡ u }
    ensures read { (bytes : List ℕ) → (t : Term) → (strict_term_of bytes ≡ Some t) ↔ (bytes ≡ strict_text t) }
{}
