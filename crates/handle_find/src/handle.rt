ghost use Rattle.std.specs.Prelude.{◌≡◌, ℕ, ◌<◌, ◌↔◌, ◌⊎◌, not, [], length, None, IsTrue, MatchOption, nat_lt};
ghost use Rattle.std.specs.List.{list_all};
ghost use Rattle.braid_word.specs.Order.{IsSigmaPositive, IsSigmaNegative};
ghost use Rattle.handle_find.specs.Handles.{IsHandle, IsLeftmost, HasNoHandle, leftmost_of};

use braid_word::Letter;

/// Whether the letters from place `p` to place `q`, counted from 0, are a handle: the two have one index
/// and opposite signs, and those between have higher indices.
///
/// It is false where `p` isn't below `q`, or `q` is past the end. After Dehornoy, A fast method for
/// comparing braids.
pub fn is_handle(word: &[Letter], p: usize, q: usize) -> bool
    ensures { IsTrue result ↔ IsHandle word.now p q }
{
    if p < q && q < word.len() {
        let first = word[p];
        let last = word[q];
        are_opposite(first, last) && all_higher(&word[p + 1..q], first)
    } else {
        false
    }
}

// Whether two letters have one index and opposite signs.
pub(crate) fn are_opposite(first: Letter, last: Letter) -> bool
    ensures { IsTrue result ↔ (last.index ≡ first.index) × (last.negative ≡ not first.negative) }
{
    last.index == first.index && last.negative != first.negative
}

// Whether each of the letters has a higher index than this one.
fn all_higher(letters: &[Letter], than: Letter) -> bool
    ensures { result ≡ list_all (λ x. nat_lt than.index x.index) letters.now }
{
    letters.iter().all(|letter| than.index < letter.index)
}

// The start of the handle that ends at a place.
fn start_of_handle(word: &[Letter], end: usize) -> Option<usize>
    requires { end < length word.now }
    ensures { MatchOption result ((p : ℕ) → IsHandle word.now p end → ⊥) (λ p. IsHandle word.now p end) }
{
    let last = word[end];
    for start in (0..end).rev() {
        let first = word[start];
        if first.index <= last.index {
            return if are_opposite(first, last) {
                Some(start)
            } else {
                None
            };
        }
    }
    None
}

/// The two places, counted from 0, of the leftmost handle: the one that ends first.
///
/// `None` exactly where there is no handle. After Dehornoy, A fast method for comparing braids; the exact
/// form of a handle and taking the one that ends first are this project's.
pub fn leftmost(word: &[Letter]) -> Option<(usize, usize)>
    ensures places { result ≡ leftmost_of word.now }
    ensures leftmost { MatchOption result (HasNoHandle word.now) (λ r. IsLeftmost word.now r.0 r.1) }

    // A word without a handle shows its sign.
    ensures signed { result ≡ None → (word.now ≡ []) ⊎ (IsSigmaPositive word.now ⊎ IsSigmaNegative word.now) }
{
    for end in 0..word.len() {
        if let Some(start) = start_of_handle(word, end) {
            return Some((start, end));
        }
    }
    None
}
