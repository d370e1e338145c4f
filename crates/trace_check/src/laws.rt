// A law of trace files. It is the contract of a function that does nothing.
ghost use Rattle.std.specs.Prelude.{◌≡◌, ◌↔◌, ℕ, List, Ok};
ghost use Rattle.trace_format.specs.TraceText.{Trace};
ghost use Rattle.trace_check.specs.Accepted.{IsAccepted, IsValid, Claim, counted_claim};
ghost use Rattle.trace_check.specs.Checking.{checked_of};

/// A file claims something exactly where it is the text of an accepted trace, and then what this claims; an
/// accepted trace is valid. So what a `Checker` and `check_source` claim holds, as what `check` claims does.
/// Steps are counted up to the greatest number of 64 bits.
///
/// The law is the contract. The format is this project's.
pub fn law_checked()
    ensures accepted { (bytes : List ℕ) → (claim : Claim)
        → (checked_of bytes ≡ Ok claim)
        ↔ ((t : Trace) × IsAccepted bytes t × (claim ≡ counted_claim t)) }
    ensures valid { (bytes : List ℕ) → (t : Trace) → IsAccepted bytes t → IsValid t }
{}
