//! Laws of the definitions, and worked examples. Each function is empty, and its contract is the law or the examples.

ghost use Rattle.std.specs.Prelude.{◌≡◌, ◌^◌, ◌<◌, ◌≤◌, ℕ, pos, List, [], ◌∷◌, Option, Some, None};
ghost use Rattle.msl_base.specs.Blocks.{AreTiles, IsInBlock, block_of};
ghost use Rattle.msl_base.specs.Codes.{code, code_of, HasCode, Decodes};
ghost use Rattle.msl_base.specs.declared.fault.Fault.TheVariants.{Shape, ManyLines};
ghost use Rattle.msl_base.specs.Examples.{first_of};
ghost use Rattle.msl_base.specs.Streams.{Record, Outcome, Stream, stream, done, failed, unread, cut, Pointwise, Unordered, pointwise, IsFunction, PrefixLaw, Sound};

/// Where an outcome is a function of its record, the output stream is a function of the input stream.
pub fn pointwise_is_a_function()
    ensures { (f : Record → Outcome) → IsFunction (Pointwise (λ x r. r ≡ f x)) (pointwise f) }
{}

/// What is made of a beginning stands at the front of what is made of the whole.
pub fn pointwise_has_prefixes()
    ensures { (f : Record → Outcome) → PrefixLaw (Pointwise (λ x r. r ≡ f x)) }
{}

/// A whole output is sound.
pub fn a_whole_output_is_sound()
    ensures { (f : Record → Outcome) (X : Stream) → Sound (Pointwise (λ x r. r ≡ f x)) X (pointwise f X) }
{}

/// Results in the order of the input are one of the orders.
pub fn in_order_is_an_order()
    ensures { (f : Record → Outcome) (X : Stream) → Unordered (λ x r. r ≡ f x) X (pointwise f X) }
{}

/// Each record by itself, in order. The first fault ends the output; without one the output ends as the input.
pub fn records_in_order()
    ensures whole { pointwise first_of (stream ((pos 3 ∷ pos 4 ∷ []) ∷ (pos 5 ∷ []) ∷ []) done) ≡ stream ((pos 3 ∷ []) ∷ (pos 5 ∷ []) ∷ []) done }
    ensures fault { pointwise first_of (stream ((pos 3 ∷ []) ∷ [] ∷ (pos 5 ∷ []) ∷ []) done) ≡ stream ((pos 3 ∷ []) ∷ []) (failed (Shape 1 0 1)) }
    ensures refused { pointwise first_of (stream ((pos 3 ∷ []) ∷ []) (failed ManyLines)) ≡ stream ((pos 3 ∷ []) ∷ []) (failed ManyLines) }
    ensures open { pointwise first_of (stream ((pos 3 ∷ []) ∷ []) unread) ≡ stream ((pos 3 ∷ []) ∷ []) unread }
{}

/// Of a farm's output the order is open, and results of records behind the one that faults may be in it.
pub fn records_of_a_farm()
    ensures turned { Unordered (λ x r. r ≡ first_of x) (stream ((pos 3 ∷ []) ∷ (pos 5 ∷ []) ∷ []) done) (stream ((pos 5 ∷ []) ∷ (pos 3 ∷ []) ∷ []) done) }
    ensures fault { Unordered (λ x r. r ≡ first_of x) (stream ((pos 3 ∷ []) ∷ [] ∷ (pos 5 ∷ []) ∷ []) done) (stream ((pos 5 ∷ []) ∷ (pos 3 ∷ []) ∷ []) (failed (Shape 1 0 1))) }
{}

/// An output that was given up is sound where it is a beginning.
pub fn a_beginning_is_sound()
    ensures { Sound (Pointwise (λ x r. r ≡ first_of x)) (stream ((pos 3 ∷ []) ∷ (pos 5 ∷ []) ∷ []) done) (stream ((pos 3 ∷ []) ∷ []) cut) }
{}

/// Blocks lie side by side from the first place to the last; each place is in one of them.
pub fn tiles()
    ensures side_by_side { (n b : ℕ) → 1 ≤ b → AreTiles n b }
    ensures block { (n b j i : ℕ) → j < b → IsInBlock n b j i → block_of n b i ≡ j }
{}

/// A path's code is above 0 and below 2 ^ 57, and no other path has it.
pub fn a_code_is_of_one_path()
    ensures range { (bits : ℕ) (path : List ℕ) → HasCode bits path → (0 < code bits path) × (code bits path < 2 ^ 57) }
    ensures distinct { (bits : ℕ) (p q : List ℕ) → 1 ≤ bits → HasCode bits p → HasCode bits q → code bits p ≡ code bits q → p ≡ q }
{}

/// A code is read as the path that it was made of, and the path that was read has the code.
pub fn codes_are_undone()
    ensures read { (bits : ℕ) (path : List ℕ) (found : Option (List ℕ)) → 1 ≤ bits → HasCode bits path → Decodes bits (code bits path) found → found ≡ Some path }
    ensures made { (bits c : ℕ) (path : List ℕ) → Decodes bits c (Some path) → code_of bits path ≡ Some c }
{}

/// With fields of 2 bits, step 2 behind the leading 1 is 6. The leading 1 of 2 stands within a field, and 0 has none.
pub fn codes_with_2_bits()
    ensures made { code_of 2 (2 ∷ []) ≡ Some 6 }
    ensures read { Decodes 2 6 (Some (2 ∷ [])) }
    ensures within { Decodes 2 2 None }
    ensures zero { Decodes 2 0 None }
{}
