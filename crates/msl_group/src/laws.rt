//! Laws of the definitions, and worked examples. Each function is empty, and its contract is the law or the examples.

ghost use Rattle.std.specs.Prelude.{◌≡◌, ◌<◌, ◌≤◌, ◌+◌, ◌++◌, ◌⊎◌, ℕ, [], ◌∷◌, Ok, Err, Contains, length};
ghost use Rattle.msl_group.specs.Spans.{Span, span, members, split, merged, AreApart, IsOnce};

/// A group that is split at a place and merged again is the group.
pub fn merge_undoes_split()
    ensures { (g : Span) (k : ℕ) → k ≤ g.count → merged (split g k).0 (split g k).1 ≡ Ok g }
{}

/// What is merged has the members of both, one list after the other, and splits into the two again.
pub fn split_undoes_merge()
    ensures all { (g next whole : Span) → merged g next ≡ Ok whole → members whole ≡ members g ++ members next }
    ensures split { (g next whole : Span) → merged g next ≡ Ok whole → split whole g.count ≡ (g, next) }
{}

/// The parts have the members of the whole, one list after the other, and the first part has the first k. Each member
/// is in one part, and none is in both.
pub fn no_member_is_lost()
    ensures all { (g : Span) (k : ℕ) → k ≤ g.count → members (split g k).0 ++ members (split g k).1 ≡ members g }
    ensures first { (g : Span) (k : ℕ) → length (members (split g k).0) ≡ k }
    ensures each { (g : Span) (k i : ℕ) → k ≤ g.count → Contains (members g) i → Contains (members (split g k).0) i ⊎ Contains (members (split g k).1) i }
    ensures apart { (g : Span) (k : ℕ) → AreApart (members (split g k).0) (members (split g k).1) }
{}

/// A group has each of its members once.
pub fn members_are_distinct()
    ensures { (g : Span) → IsOnce (members g) }
{}

/// Groups that are split and merged.
pub fn groups()
    ensures members { members (span 3 4) ≡ 3 ∷ 4 ∷ 5 ∷ 6 ∷ [] }
    ensures split { split (span 0 7) 3 ≡ (span 0 3, span 3 4) }
    ensures merged { merged (span 0 3) (span 3 4) ≡ Ok (span 0 7) }
    ensures turned { merged (span 3 4) (span 0 3) ≡ Err (span 3 4, span 0 3) }
    ensures gap { merged (span 0 3) (span 4 4) ≡ Err (span 0 3, span 4 4) }
{}
