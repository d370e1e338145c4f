ghost use Rattle.std.specs.Prelude.{◌≡◌, ℕ, List, Option};
ghost use Rattle.wb_base.specs.Lines.{lines_of};
ghost use Rattle.ld_term.specs.Terms.{Term};
ghost use Rattle.term_graph.specs.TermFiles.{IsTermFile, IsFileRefusal, terms_at};
ghost use Rattle.term_graph.specs.declared.file_error.DefsErr.{DefsErr};

/// A term file has one refusal at most, and none where it is read; it makes one graph, and its last terms are
/// the same.
///
/// The law is the contract; the body does nothing.
pub fn law_one_file(bytes: &[u8], terms: u32)
    ensures refusal { (e : DefsErr) → (f : DefsErr) → IsFileRefusal terms (lines_of bytes.now) e
        → IsFileRefusal terms (lines_of bytes.now) f → e ≡ f }
    ensures file { (made : List Term) → (first : ℕ) → (second : Option ℕ) → (e : DefsErr)
        → IsTermFile terms (lines_of bytes.now) made first second → IsFileRefusal terms (lines_of bytes.now) e
        → ⊥ }
    ensures made { (made : List Term) → (again : List Term) → (first : ℕ) → (other : ℕ) → (second : Option ℕ)
        → (next : Option ℕ) → IsTermFile terms (lines_of bytes.now) made first second
        → IsTermFile terms (lines_of bytes.now) again other next → made ≡ again }
    ensures last { (made : List Term) → (again : List Term) → (first : ℕ) → (other : ℕ) → (second : Option ℕ)
        → (next : Option ℕ) → IsTermFile terms (lines_of bytes.now) made first second
        → IsTermFile terms (lines_of bytes.now) again other next
        → terms_at made first second ≡ terms_at again other next }
{}
