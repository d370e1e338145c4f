// Laws of right reversing and of reverse files. Each is the contract of a function that does nothing.
ghost use Rattle.std.specs.Prelude.{◌≡◌, ◌↔◌, ◌≤◌, ℕ, List, Some, None, Ok};
ghost use Rattle.braid_word.specs.Words.{Letter, IsOn};
ghost use Rattle.braid_word.specs.Equivalence.{EquivalentOn};
ghost use Rattle.braid_word.specs.Notation.{IsReadable};
ghost use Rattle.word_reverse.specs.declared.TheConstants.{MAX_BOUND};
ghost use Rattle.word_reverse.specs.declared.progress.RevProgress.TheVariants.{Done};
ghost use Rattle.word_reverse.specs.Corners.{IsCorner, IsLeftmostCorner, HasNoCorner, turned_at, corner_of};
ghost use Rattle.word_reverse.specs.RevRuns.{rev_after};
ghost use Rattle.word_reverse.specs.ReverseText.{Reversal, reverse_text};
ghost use Rattle.word_reverse.specs.Written.{reversal_of};
ghost use Rattle.word_reverse.specs.Accepted.{IsAccepted, IsValid, Claim, claim_of};
ghost use Rattle.word_reverse.specs.Checking.{checked_of};

/// The corner that a run turns is the leftmost one of its word, and none is found exactly where there is
/// none.
///
/// The law is the contract. To take the leftmost corner is this project's choice.
pub fn law_leftmost_corner()
    ensures some { (w : List Letter) → (p : ℕ) → (corner_of w ≡ Some p) ↔ IsLeftmostCorner w p }
    ensures none { (w : List Letter) → (corner_of w ≡ None) ↔ HasNoCorner w }
{}

/// A word with a corner turned, wherever that stands, represents the same braid, on as few strands.
///
/// The law is the contract. After P. Dehornoy, Groups with a complemented presentation.
pub fn law_turned_corner()
    ensures { (n : ℕ) → (w : List Letter) → (p : ℕ) → IsOn n w → IsCorner w p
        → EquivalentOn n w (turned_at w p) }
{}

/// What is written of a word that can be read, and of its run that is done, is accepted.
///
/// The law is the contract. The format is this project's.
pub fn law_written_reversal()
    ensures { (w : List Letter) → (steps limit t : ℕ) → IsReadable w → limit ≤ MAX_BOUND
        → (rev_after w steps limit t).progress ≡ Done
        → IsAccepted (reverse_text (reversal_of w (rev_after w steps limit t)))
        (reversal_of w (rev_after w steps limit t)) }
{}

/// A file claims something exactly where it is the text of an accepted reversal, and then what this claims;
/// an accepted reversal is valid. So what a `Checker` and `check_source` of `line_file` claim of a
/// [`ReverseFile`](crate::ReverseFile) holds, as what [`check_reverse`](crate::check_reverse) claims does.
///
/// The law is the contract. The format is this project's.
pub fn law_checked()
    ensures accepted { (bytes : List ℕ) → (claim : Claim)
        → (checked_of bytes ≡ Ok claim)
        ↔ ((r : Reversal) × IsAccepted bytes r × (claim ≡ claim_of r)) }
    ensures valid { (bytes : List ℕ) → (r : Reversal) → IsAccepted bytes r → IsValid r }
{}
