// Laws of certificates. Each is the contract of a function that does nothing.
ghost use Rattle.std.specs.Prelude.{◌≡◌, ◌↔◌, ℕ, List, Ok};
ghost use Rattle.ld_term.specs.Terms.{Term, IsEquivalent};
ghost use Rattle.ld_cert.specs.Certificates.{Certificate, yes_by, no_by, IsRight, IsRightOf, path_certificate};
ghost use Rattle.ld_cert.specs.Accepted.{IsAccepted, Claim, claim_of};
ghost use Rattle.ld_cert.specs.Checking.{checked_of};

/// A yes that is right shows that its terms are equivalent, and a no that they aren't: no two terms have both.
/// A term and its derived one have a yes, with the path of the term and no address for the second. That a
/// pair of terms has a certificate isn't said.
///
/// The law is the contract. After P. Dehornoy, Braids and Self-Distributivity, 2000.
pub fn law_answers()
    ensures yes { (t u : Term) (left right : List (List ℕ))
        → IsRightOf t u (yes_by left right) → IsEquivalent t u }
    ensures no { (t u : Term) (n : ℕ) → IsRightOf t u (no_by n) → IsEquivalent t u → ⊥ }
    ensures one { (t u : Term) (left right : List (List ℕ)) (n : ℕ)
        → IsRightOf t u (yes_by left right) → IsRightOf t u (no_by n) → ⊥ }
    ensures path { (t : Term) → IsRight (path_certificate t) }
{}

/// A file claims something exactly where it is the text of an accepted certificate, and then what this claims.
///
/// The law is the contract. The format is this project's.
pub fn law_checked()
    ensures { (bytes : List ℕ) → (claim : Claim)
        → (checked_of bytes ≡ Ok claim)
        ↔ ((c : Certificate) × IsAccepted bytes c × (claim ≡ claim_of c)) }
{}
