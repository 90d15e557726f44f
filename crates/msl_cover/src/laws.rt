//! Laws of covers. Each function is empty, and its contract is the law.

ghost use Rattle.std.specs.Prelude.{◌≡◌, ◌<◌, ◌≤◌, ◌+◌, ◌⊎◌, ◌↔◌, ℕ, List, [], ◌∷◌, ◌++◌, Contains, IsPermutation};
ghost use Rattle.msl_base.specs.Covers.{Split, split, times, children, all_children, split_paths, Counts, Balanced, Covers, ComesUp};

/// Where the root and the children are split or left as often as they come up, no path is split twice.
pub fn counts_are_balanced()
    ensures { (splits : List Split) (leaves : List (List ℕ)) → Counts splits leaves → Balanced splits leaves }
{}

/// No path comes up twice.
pub fn each_comes_up_at_most_once()
    ensures { (splits : List Split) (leaves : List (List ℕ)) (p : List ℕ) → Counts splits leaves → times p ([] ∷ all_children splits) ≤ 1 }
{}

/// In a cover, what comes up is split once and never shut, or shut once and never split. What doesn't come up is
/// neither split nor shut.
pub fn each_comes_up_once()
    ensures once { (splits : List Split) (shut : List (List ℕ)) (p : List ℕ) → Covers splits shut → ComesUp splits p → times p (split_paths splits) + times p shut ≡ 1 }
    ensures never { (splits : List Split) (shut : List (List ℕ)) (p : List ℕ) → Covers splits shut → (ComesUp splits p → ⊥) → times p (split_paths splits) + times p shut ≡ 0 }
{}

/// What comes up is the root, and the children of the splits, and nothing else.
pub fn what_comes_up()
    ensures root { (splits : List Split) → ComesUp splits [] }
    ensures child { (splits : List Split) (s : Split) (j : ℕ) → Contains splits s → j < s.count → ComesUp splits (s.path ++ j ∷ []) }
    ensures nothing_else { (splits : List Split) (p : List ℕ) → ComesUp splits p → (p ≡ []) ⊎ ((s : Split) × (j : ℕ) × Contains splits s × (j < s.count) × (p ≡ s.path ++ j ∷ [])) }
{}

/// In a cover, the root and each child of a split are split or shut.
pub fn no_child_is_lost()
    ensures root { (splits : List Split) (shut : List (List ℕ)) → Covers splits shut → Contains (split_paths splits) [] ⊎ Contains shut [] }
    ensures child { (splits : List Split) (shut : List (List ℕ)) (s : Split) (j : ℕ) → Covers splits shut → Contains splits s → j < s.count → Contains (split_paths splits) (s.path ++ j ∷ []) ⊎ Contains shut (s.path ++ j ∷ []) }
{}

/// A path is in a list where it is there once or more.
pub fn what_is_counted_is_there()
    ensures { (p : List ℕ) (ps : List (List ℕ)) → 1 ≤ times p ps ↔ Contains ps p }
{}

/// Before the first split the root alone is left.
pub fn the_root_is_left_first()
    ensures { Counts [] ([] ∷ []) }
{}

/// A path that is left may be split. Its children are left in its place.
pub fn a_split_leaves_the_children()
    ensures { (splits : List Split) (front back : List (List ℕ)) (p : List ℕ) (k : ℕ) → Counts splits (front ++ p ∷ back) → Counts (split p k ∷ splits) (front ++ children p k ++ back) }
{}

/// The order of what is left says nothing.
pub fn leaves_are_counted()
    ensures { (splits : List Split) (leaves reordered : List (List ℕ)) → IsPermutation leaves reordered → Counts splits leaves → Counts splits reordered }
{}
