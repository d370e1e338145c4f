ghost use Rattle.std.specs.Prelude.{◌≡◌, ℕ, ◌+◌, ◌^◌, List};
ghost use Rattle.laver_table.specs.Table.{entry, IsUpTo, IsLaver, IsComputed, ExceedsRows};
ghost use Rattle.laver_table.specs.Form.{period_of, IsPeriodic, Doubles};

/// For each n there is exactly one Laver table of size 2^n. It obeys the equations by which it is computed
/// from its last row on, each entry of another row is above the number of its row, and each row has 2^n in
/// its last column.
///
/// The law is the contract; the body does nothing. After Laver, On the algebra of elementary embeddings of a
/// rank into itself, and Dehornoy, Braids and Self-Distributivity, chapter X.
pub fn law_one_table()
    ensures exists { (n : ℕ) → (rows : List (List ℕ)) × IsLaver n rows }
    ensures unique { (n : ℕ) (rows other : List (List ℕ)) → IsLaver n rows → IsLaver n other → rows ≡ other }
    ensures computed { (n : ℕ) (rows : List (List ℕ)) → IsLaver n rows → IsComputed (2 ^ n) rows }
    ensures exceeding { (n : ℕ) (rows : List (List ℕ)) → IsLaver n rows → ExceedsRows (2 ^ n) rows }
    ensures full { (n : ℕ) (rows : List (List ℕ)) (p : ℕ) → IsLaver n rows → IsUpTo (2 ^ n) p
        → entry rows p (2 ^ n) ≡ 2 ^ n }
{}

/// Each Laver table is periodic in its rows, and comes from the Laver table of half its size by one
/// threshold for each row of that.
///
/// The law is the contract; the body does nothing. After Drapal, Homomorphisms of primitive left
/// distributive groupoids, and Dehornoy, Braids and Self-Distributivity, chapter X.
pub fn law_doubling()
    ensures periodic { (n : ℕ) (rows : List (List ℕ)) (p : ℕ) → IsLaver n rows → IsUpTo (2 ^ n) p
        → IsPeriodic (2 ^ n) rows p (period_of rows p) }
    ensures doubles { (n : ℕ) (small large : List (List ℕ)) → IsLaver n small → IsLaver (n + 1) large
        → Doubles (2 ^ n) small large }
{}
