ghost use Rattle.std.specs.Prelude.{◌≡◌, ◌↔◌, ℕ, Ok, Err, IfOk};
ghost use Rattle.line_file.specs.Keeping.{Gives};
ghost use Rattle.ld_term.specs.Terms.{IsEquivalent};
ghost use Rattle.ld_cert.specs.Certificates.{Certificate};
ghost use Rattle.ld_cert.specs.Accepted.{IsAccepted, claim_of};
ghost use Rattle.ld_cert.specs.Checking.{checked_of};
ghost use Rattle.ld_cert.specs.FirstRefusal.{IsFirstRefusal, HasNoRefusal, IfRefused};
ghost use Rattle.ld_cert.specs.declared.checked.LdAnswer.TheVariants.{Yes, No};
ghost use Rattle.ld_cert.specs.declared.checked.LdWhy.{LdWhy as Cause};

use crate::checked::{LdChecked, LdErr};
use crate::reading::Reading;
use line_file::check_file;
use std::alloc::Global;

/// Checks a certificate file of any maker: for a yes it replays the expansions of both terms, for a no it
/// computes both values.
///
/// It is accepted where it is the text of a certificate that is right: then the terms are equivalent for a
/// yes, and aren't for a no. Any other file is refused, at the first line that can't stand there; lines count
/// from 1. One graph takes the products of all lines, and refuses those that are too high or too many, so
/// that a file that asks for more is refused too. The format is this project's.
pub fn check_ld(alloc: Global, bytes: &[u8]) -> Result<LdChecked, LdErr>
    // What it claims is what the certificate claims whose text the file is, which is accepted.
    ensures accepted { IfOk result (λ claim. (c : Certificate) × IsAccepted bytes.now c × (claim ≡ claim_of c)) }

    // So what it claims holds.
    ensures yes { IfOk result (λ claim. claim.answer ≡ Yes → IsEquivalent claim.left claim.right) }
    ensures no { IfOk result
        (λ claim. (n : ℕ) → claim.answer ≡ No n → IsEquivalent claim.left claim.right → ⊥) }

    // What is accepted isn't refused, unless memory runs out, and is the text of one certificate alone.
    ensures only { (c : Certificate) → IsAccepted bytes.now c → Gives result (Ok (claim_of c)) }
    ensures one { (c d : Certificate) → IsAccepted bytes.now c → IsAccepted bytes.now d → c ≡ d }

    // A refusal is the file's first; that one is answered, unless memory runs out; and there is none exactly
    // where the file is the text of an accepted certificate.
    ensures refused { IfRefused result (IsFirstRefusal bytes.now) }
    ensures first { (line : ℕ) (why : Cause) → IsFirstRefusal bytes.now line why
        → Gives result (Err (line, why)) }
    ensures unrefused { HasNoRefusal bytes.now ↔ ((c : Certificate) × IsAccepted bytes.now c) }

    // What it claims, or its first refusal.
    ensures exact { Gives result (checked_of bytes.now) }
{
    check_file::<Reading>(alloc, bytes)
}
