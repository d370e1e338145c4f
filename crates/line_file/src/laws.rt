// Laws of files of lines. Each is the contract of a function that does nothing.
ghost use Rattle.std.specs.Prelude.{◌≡◌, ◌↔◌, ◌≤◌, ◌++◌, ℕ, List, Some, Ok, Err};
ghost use Rattle.line_file.specs.Formats.{checked_of};
ghost use Rattle.line_file.specs.FirstRefusal.{IsClaimed, IsFirstRefusal, HasNoRefusal, IsEarlyRefusal};
ghost use Rattle.line_file.specs.Pieces.{held_of, was_refused, fed, finished, length_held};

use crate::format::LineFormat;

/// A file claims something exactly where all its lines are kept and the last one is passed at its end, is
/// refused exactly at its first refusal, and has one of these alone.
///
/// The law is the contract. Formats of lines are this project's.
pub fn law_first_refusal<F: LineFormat>()
    ensures claimed { (bytes : List ℕ) → (claim : F.Claim)
        → (checked_of F.format bytes ≡ Ok claim) ↔ IsClaimed F.format bytes claim }
    ensures refused { (bytes : List ℕ) → (line : ℕ) → (why : F.Why)
        → (checked_of F.format bytes ≡ Err (line, why)) ↔ IsFirstRefusal F.format bytes line why }
    ensures one { (bytes : List ℕ) → (k m : ℕ) → (w why : F.Why)
        → IsFirstRefusal F.format bytes k w → IsFirstRefusal F.format bytes m why → (k ≡ m) × (w ≡ why) }
    ensures unrefused { (bytes : List ℕ)
        → HasNoRefusal F.format bytes ↔ ((claim : F.Claim) × IsClaimed F.format bytes claim) }
{}

/// What is held of some bytes doesn't depend on the pieces in which they come; it is no more than a line may
/// have, and its end is the check of the file. It is a refusal exactly where the bytes have an early one, and
/// that is the file's, whatever follows.
///
/// The law is the contract. Formats of lines are this project's.
pub fn law_pieces<F: LineFormat>()
    ensures fed { (bytes piece : List ℕ)
        → fed F.format (held_of F.format bytes) piece ≡ held_of F.format (bytes ++ piece) }
    ensures ended { (bytes : List ℕ)
        → finished F.format (held_of F.format bytes) ≡ Some (checked_of F.format bytes) }
    ensures short { (bytes : List ℕ) → length_held (held_of F.format bytes) ≤ F.format.most }
    ensures told { (bytes : List ℕ) → (line : ℕ) → (why : F.Why)
        → (held_of F.format bytes ≡ was_refused line why) ↔ IsEarlyRefusal F.format bytes line why }
    ensures early { (bytes more : List ℕ) → (line : ℕ) → (why : F.Why)
        → held_of F.format bytes ≡ was_refused line why
        → checked_of F.format (bytes ++ more) ≡ Err (line, why) }
{}
