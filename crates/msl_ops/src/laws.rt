//! Laws of the operators and of their table. Each function is empty, and its contract is the law.

ghost use Rattle.std.specs.Prelude.{◌≡◌, ◌≢◌, ◌↔◌, ◌^◌, ◌≤◌, ◌<◌, ◌++◌, ◌+◌, ◌%◌, min, max, ℕ, ℤ, pos, negsuc, ◌+ℤ◌, ◌*ℤ◌, ◌≤ℤ◌, ◌<ℤ◌, List, [], ◌∷◌, length, fold, All, Contains, FitsSigned, Some, None, Ok, Err, codes};
ghost use Rattle.std.specs.Int.{w64, w128, IsGcd, bit_at, cast_unsigned, int_rem_euclid};
ghost use Rattle.msl_base.specs.declared.fault.Fault.TheVariants.{Overflow};
ghost use Rattle.msl_ops.specs.declared.op.OpKind.{OpKind};
ghost use Rattle.msl_ops.specs.declared.op.OpKind.TheVariants.{Sum, Min, Max, And, Or, Xor, Gcd, AddMod, MulMod};
ghost use Rattle.msl_ops.specs.Gcd.{gcd};
ghost use Rattle.msl_ops.specs.Lawful.{IsLawful, folded};
ghost use Rattle.msl_ops.specs.Meaning.{IsInDomainOf, unit_of, lift_of, combine_of, fold_of, settle};
ghost use Rattle.msl_ops.specs.Table.{rows, name_of, kind_named, greatest_modulus};

use crate::Lawful;

/// Each row of the table keeps the laws: numbers are lifted into the domain, which is closed; there the operator is
/// associative and its unit is neutral; and no fold of at most 2 ^ 60 numbers leaves 128 signed bits.
pub fn rows_are_lawful()
    ensures { (kind : OpKind) (m : ℤ) → pos 1 ≤ℤ m → m ≤ℤ greatest_modulus kind → IsLawful (IsInDomainOf kind m) (unit_of kind m) (lift_of kind m) (combine_of kind m) }
{}

/// The sum of at most 2 ^ 60 numbers of 64 signed bits is within 128 signed bits.
pub fn sums_fit()
    ensures { (xs : List ℤ) → length xs ≤ 2 ^ 60 → All (FitsSigned w64) xs → FitsSigned w128 (fold ◌+ℤ◌ (pos 0) xs) }
{}

/// A list that is folded in two parts, which are then combined, gives what the whole list gives.
pub fn parts_combine<L: Lawful>(op: &L)
    ensures within { (xs : List ℤ) → All (FitsSigned w64) xs → L.IsInDomain op.now (folded (L.unit op.now) (L.lift op.now) (L.combine op.now) xs) }
    ensures parts { (xs ys : List ℤ) → All (FitsSigned w64) xs → All (FitsSigned w64) ys → folded (L.unit op.now) (L.lift op.now) (L.combine op.now) (xs ++ ys) ≡ L.combine op.now (folded (L.unit op.now) (L.lift op.now) (L.combine op.now) xs) (folded (L.unit op.now) (L.lift op.now) (L.combine op.now) ys) }
{}

/// The greatest common divisor divides both numbers, and every common divisor divides it.
pub fn greatest_common_divisors()
    ensures divides { (a b : ℕ) → IsGcd a b (gcd a b) }
    ensures zero { (a : ℕ) → gcd 0 a ≡ a }
{}

/// The remainder by m is from 0 to m - 1, and differs from the number by a multiple of m.
pub fn remainders()
    ensures least { (x m : ℤ) → pos 1 ≤ℤ m → pos 0 ≤ℤ int_rem_euclid x m }
    ensures most { (x m : ℤ) → pos 1 ≤ℤ m → int_rem_euclid x m <ℤ m }
    ensures multiple { (x m : ℤ) → pos 1 ≤ℤ m → (q : ℤ) × (x ≡ (q *ℤ m) +ℤ int_rem_euclid x m) }
{}

/// Each of the 64 bits of a bitwise result is that of the two bits at its place.
pub fn bits()
    ensures and { (m a b : ℤ) (i : ℕ) → FitsSigned w64 a → FitsSigned w64 b → bit_at (cast_unsigned w64 (combine_of And m a b)) i ≡ min (bit_at (cast_unsigned w64 a) i) (bit_at (cast_unsigned w64 b) i) }
    ensures or { (m a b : ℤ) (i : ℕ) → FitsSigned w64 a → FitsSigned w64 b → bit_at (cast_unsigned w64 (combine_of Or m a b)) i ≡ max (bit_at (cast_unsigned w64 a) i) (bit_at (cast_unsigned w64 b) i) }
    ensures xor { (m a b : ℤ) (i : ℕ) → FitsSigned w64 a → FitsSigned w64 b → bit_at (cast_unsigned w64 (combine_of Xor m a b)) i ≡ (bit_at (cast_unsigned w64 a) i + bit_at (cast_unsigned w64 b) i) % 2 }
{}

/// A result within 64 signed bits is settled as it is, and any other is an overflow.
pub fn results_settle()
    ensures within { (stage : ℕ) (v : ℤ) → FitsSigned w64 v → settle stage v ≡ Ok v }
    ensures outside { (stage : ℕ) (v : ℤ) → ¬ FitsSigned w64 v → settle stage v ≡ Err (Overflow stage) }
{}

/// Each operator has a row, whose name finds it. What is found has the name, and nothing is found exactly where no
/// row has it.
pub fn names_find()
    ensures each { (kind : OpKind) → kind_named rows (name_of kind) ≡ Some kind }
    ensures found { (kinds : List OpKind) (name : List ℕ) (kind : OpKind) → kind_named kinds name ≡ Some kind → Contains kinds kind × (name_of kind ≡ name) }
    ensures none { (kinds : List OpKind) (name : List ℕ) → (kind_named kinds name ≡ None) ↔ All (λ kind. name_of kind ≢ name) kinds }
{}

/// What each row folds some numbers to.
pub fn examples()
    ensures sum { fold_of Sum (pos 1) (pos 9223372036854775807 ∷ pos 1 ∷ negsuc 0 ∷ []) ≡ pos 9223372036854775807 }
    ensures min { fold_of Min (pos 1) (pos 3 ∷ negsuc 4 ∷ []) ≡ negsuc 4 }
    ensures max { fold_of Max (pos 1) (pos 3 ∷ negsuc 4 ∷ []) ≡ pos 3 }
    ensures and { fold_of And (pos 1) (pos 12 ∷ negsuc 5 ∷ []) ≡ pos 8 }
    ensures or { fold_of Or (pos 1) (pos 5 ∷ negsuc 7 ∷ []) ≡ negsuc 2 }
    ensures xor { fold_of Xor (pos 1) (negsuc 0 ∷ pos 5 ∷ []) ≡ negsuc 5 }
    ensures gcd { fold_of Gcd (pos 1) (pos 12 ∷ negsuc 17 ∷ []) ≡ pos 6 }
    ensures addmod { fold_of AddMod (pos 7) (negsuc 0 ∷ pos 3 ∷ []) ≡ pos 2 }
    ensures mulmod { fold_of MulMod (pos 10) (pos 7 ∷ pos 8 ∷ []) ≡ pos 6 }
{}

/// What each row folds no numbers to.
pub fn units()
    ensures sum { fold_of Sum (pos 1) [] ≡ pos 0 }
    ensures min { fold_of Min (pos 1) [] ≡ pos 9223372036854775807 }
    ensures max { fold_of Max (pos 1) [] ≡ negsuc 9223372036854775807 }
    ensures and { fold_of And (pos 1) [] ≡ negsuc 0 }
    ensures or { fold_of Or (pos 1) [] ≡ pos 0 }
    ensures xor { fold_of Xor (pos 1) [] ≡ pos 0 }
    ensures gcd { fold_of Gcd (pos 1) [] ≡ pos 0 }
    ensures addmod { fold_of AddMod (pos 7) [] ≡ pos 0 }
    ensures mulmod { fold_of MulMod (pos 10) [] ≡ pos 1 }
    ensures modulo_one { fold_of MulMod (pos 1) [] ≡ pos 0 }
{}

/// The least number of 64 signed bits is lifted to one that only 128 bits hold.
pub fn overflows()
    ensures { settle 1 (fold_of Gcd (pos 1) (negsuc 9223372036854775807 ∷ [])) ≡ Err (Overflow 1) }
{}
