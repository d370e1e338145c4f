ghost use Rattle.std.specs.Prelude.{◌≡◌, ℕ, ◌+◌, ◌-◌, ◌^◌, ◌≤◌, ◌==◌, ◌++◌, min, length, vec_capacity, IfOk};
ghost use Rattle.std.specs.List.{count_by, flat_map};
ghost use Rattle.braid_word.specs.Words.{IsOn};
ghost use Rattle.braid_word.specs.Equivalence.{EquivalentOn};
ghost use Rattle.handle_find.specs.Handles.{IsHandle, replaced, reduct, HasIndicesOf};

use braid_word::{Letter, Word};
use std::alloc::{AllocError, Global};

/// How many letters the reduct at a handle has, without writing it.
///
/// The greatest `usize` stands for all that are more.
pub fn reduct_len(word: &[Letter], p: usize, q: usize) -> usize
    requires { IsHandle word.now p q }
    ensures { result ≡ min (length (reduct word.now p q)) (2 ^ 64 - 1) }
{
    let first = word[p];
    let raised = count_of_index(&word[p + 1..q], first.index + 1);
    (word.len() - 2).saturating_add(2 * raised)
}

// How many letters have this index.
fn count_of_index(letters: &[Letter], index: u16) -> usize
    ensures { result ≡ count_by (λ x. x.index == index) letters.now }
{
    letters
        .iter()
        .filter(|letter| letter.index == index)
        .count()
}

/// The reduct of a word at a handle, whose letters stand at the places `p` and `q`, counted from 0.
///
/// Of a handle of index j that begins with the sign e, the first and the last letter go, and each inside
/// letter of index j + 1 and sign d becomes three: index j + 1 with the sign against e, index j with d,
/// and index j + 1 with e. Any other letter stays. After Dehornoy, A fast method for comparing braids.
pub fn reduct(alloc: Global, word: &[Letter], p: usize, q: usize) -> Result<Word, AllocError>
    requires { IsHandle word.now p q }
    ensures letters { IfOk result (λ w. w ≡ reduct word.now p q) }

    // The two words stand for one braid, on every number of strands that the first is on, and the
    // reduct has no index that the word hasn't.
    ensures equivalent { IfOk result (λ w. (n : ℕ) → IsOn n word.now → EquivalentOn n word.now w) }
    ensures indices { IfOk result (λ w. HasIndicesOf word.now w) }
{
    let mut letters = Vec::with_capacity(alloc, reduct_len(word, p, q))?;
    write_reduct(word, p, q, &mut letters);
    Ok(Word::of(letters))
}

// Writes the reduct at a handle over what a vector holds that has room for it.
fn write_reduct(word: &[Letter], p: usize, q: usize, into: &mut Vec<Letter>)
    requires handle { IsHandle word.now p q }
    requires room { length (reduct word.now p q) ≤ vec_capacity into.old }
    ensures items { into.new.items ≡ reduct word.now p q }
    ensures capacity { vec_capacity into.old ≤ vec_capacity into.new }
{
    let first = word[p];
    into.clear();
    append(into, &word[..p]);
    append_replaced(into, &word[p + 1..q], first);
    append(into, &word[q + 1..]);
}

// Appends what stands in the reduct for the letters inside a handle that begins with this letter.
fn append_replaced(into: &mut Vec<Letter>, letters: &[Letter], first: Letter)
    requires { length into.old.items + length (flat_map (replaced first.index first.negative) letters.now)
        ≤ vec_capacity into.old }
    ensures items { into.new.items ≡ into.old.items ++ flat_map
        (replaced first.index first.negative) letters.now }
    ensures capacity { vec_capacity into.old ≤ vec_capacity into.new }
{
    for letter in letters {
        append_one_replaced(into, *letter, first);
    }
}

// The same for one letter.
fn append_one_replaced(into: &mut Vec<Letter>, letter: Letter, first: Letter)
    requires { length into.old.items + length (replaced first.index first.negative letter)
        ≤ vec_capacity into.old }
    ensures items { into.new.items ≡ into.old.items ++ replaced first.index first.negative letter }
    ensures capacity { vec_capacity into.old ≤ vec_capacity into.new }
{
    let raised = first.index + 1;
    if letter.index == raised {
        let before = Letter::new(raised, !first.negative);
        let lowered = Letter::new(first.index, letter.negative);
        let after = Letter::new(raised, first.negative);
        append(into, &[before, lowered, after]);
    } else {
        append(into, &[letter]);
    }
}

// Appends letters to a vector that has room for them.
fn append(into: &mut Vec<Letter>, letters: &[Letter])
    requires { length into.old.items + length letters.now ≤ vec_capacity into.old }
    ensures items { into.new.items ≡ into.old.items ++ letters.now }
    ensures capacity { vec_capacity into.old ≤ vec_capacity into.new }
{
    let Ok(()) = into.extend_from_slice(letters) else {
        unreachable!();
    };
}
