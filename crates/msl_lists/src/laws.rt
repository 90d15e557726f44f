//! Laws of the operations on whole lists. Each function is empty, and its contract is the law.
//! A clause `one` says that an equation has one answer, `answer` that this is the operation's, and `blocks` that it is
//! enough to know it of each block.

ghost use Rattle.std.specs.Prelude.{◌≡◌, ◌≢◌, ◌↔◌, ℕ, ◌+◌, ◌-◌, ◌*◌, ◌/◌, ◌%◌, ◌<◌, ◌≤◌, ℤ, pos, ◌+ℤ◌, List, [], ◌∷◌, ◌++◌, length, get_or, Result, Ok, Err, MatchResult};
ghost use Rattle.msl_base.specs.declared.fault.Fault.{Fault};
ghost use Rattle.msl_base.specs.declared.fault.Fault.TheVariants.{NotPermutation, Ragged};
ghost use Rattle.msl_ops.specs.declared.op.Op.{Op};
ghost use Rattle.msl_ops.specs.Meaning.{settle};
ghost use Rattle.msl_fun.specs.declared.fault.EvalFault.{EvalFault};
ghost use Rattle.msl_fun.specs.declared.funs.Fun.{Fun};
ghost use Rattle.msl_fun.specs.declared.muscle.Use.{Use};
ghost use Rattle.msl_fun.specs.Meaning.{mean, Answers};
ghost use Rattle.msl_base.specs.Blocks.{IsInBlock, begin};
ghost use Rattle.msl_lists.specs.Whole.{Function, Extent, use_of, function_of, at_stage, at, collect, each, cell, modulo, if_same_length, map_all, map_index, map_cells, zip_all, zip_index, zip_cells, fold_all, scan_all, foldl_all, permute, permute_partition, broadcast_partition, rotate_rows, rotate_cols, transpose};
ghost use Rattle.msl_lists.specs.WholeLaws.{both, joined, IsEach, IsEachPair, Combines, Passes, AnswersBelow, FaultsFirst, IsBijection, MovesElements, MovesBlocks, RepeatsBlock, RotatesRows, RotatesCols, Transposes};

/// A function in use gives the first result of an evaluation, or its fault.
pub fn uses()
    ensures given { (funs : List Fun) (f : ℕ) (given args out : List ℤ) (r : Result ℕ EvalFault) → Answers (mean funs f (given ++ args)) r out → MatchResult r (λ cost. use_of funs f given args ≡ Ok (at out 0)) (λ e. use_of funs f given args ≡ Err e) }
    ensures used { (u : Use) (args out : List ℤ) (r : Result ℕ EvalFault) → Answers (mean u.f.funs.now u.f.at (u.extra ++ args)) r out → MatchResult r (λ cost. function_of u args ≡ Ok (at out 0)) (λ e. function_of u args ≡ Err e) }
{}

/// Where all positions have values the answer has them, in order; else it is the fault of the least position.
pub fn each_element()
    ensures map { (u : Function) (stage : ℕ) (a : List ℤ) → IsEach (length a) (λ i. at_stage stage (u (at a i ∷ []))) (map_all u stage a) }
    ensures index { (u : Function) (stage : ℕ) (a : List ℤ) → IsEach (length a) (λ i. at_stage stage (u (pos i ∷ at a i ∷ []))) (map_index u stage a) }
    ensures cells { (u : Function) (stage cols : ℕ) (a : List ℤ) → IsEach (length a) (λ i. at_stage stage (u (pos (i / cols) ∷ pos (i % cols) ∷ at a i ∷ []))) (map_cells u stage cols a) }
{}

/// The same of two lists, which are refused where their lengths differ.
pub fn each_pair()
    ensures zip { (u : Function) (stage : ℕ) (a c : List ℤ) → IsEachPair stage a c (λ i. at_stage stage (u (at a i ∷ at c i ∷ []))) (zip_all u stage a c) }
    ensures index { (u : Function) (stage : ℕ) (a c : List ℤ) → IsEachPair stage a c (λ i. at_stage stage (u (pos i ∷ at a i ∷ at c i ∷ []))) (zip_index u stage a c) }
    ensures cells { (u : Function) (stage cols : ℕ) (a c : List ℤ) → IsEachPair stage a c (λ i. at_stage stage (u (pos (i / cols) ∷ pos (i % cols) ∷ at a i ∷ at c i ∷ []))) (zip_cells u stage cols a c) }
{}

/// Where all values stand, or which fault is first, says what the answer is.
pub fn one_each()
    ensures one { (n : ℕ) (f : ℕ → Result ℤ Fault) (r s : Result (List ℤ) Fault) → IsEach n f r → IsEach n f s → r ≡ s }
    ensures answer { (n : ℕ) (f : ℕ → Result ℤ Fault) (r : Result (List ℤ) Fault) → IsEach n f r → each n f ≡ r }
    ensures pair { (stage : ℕ) (a c : List ℤ) (f : ℕ → Result ℤ Fault) (r s : Result (List ℤ) Fault) → IsEachPair stage a c f r → IsEachPair stage a c f s → r ≡ s }
    ensures pair_answer { (stage : ℕ) (a c : List ℤ) (f : ℕ → Result ℤ Fault) (r : Result (List ℤ) Fault) → IsEachPair stage a c f r → if_same_length stage a c (each (length a) f) ≡ r }
    ensures blocks { (n b : ℕ) (f : ℕ → Result ℤ Fault) (r : ℕ → Result (List ℤ) Fault) → 1 ≤ b → ((j : ℕ) → j < b → IsEach (begin n b (j + 1) - begin n b j) (λ i. f (begin n b j + i)) (r j)) → each n f ≡ joined (each b r) }
{}

/// Where there is no fault each place has its value. A list in parts has the values of its parts in order, or the fault of the
/// first that has one.
pub fn in_parts<A, E>()
    ensures values { (n : ℕ) (f : ℕ → Result A E) (xs : List A) → each n f ≡ Ok xs → (length xs ≡ n) × ((k : ℕ) (d : A) → k < n → f k ≡ Ok (get_or xs k d)) }
    ensures lists { (xs ys : List (Result A E)) → collect (xs ++ ys) ≡ both (collect xs) (collect ys) }
    ensures two { (m n : ℕ) (f : ℕ → Result A E) → each (m + n) f ≡ both (each m f) (each n (λ i. f (m + i))) }
    ensures blocks { (b : ℕ) (first : ℕ → ℕ) (f : ℕ → Result A E) → first 0 ≡ 0 → ((j : ℕ) → j < b → first j ≤ first (j + 1)) → each (first b) f ≡ joined (each b (λ j. each (first (j + 1) - first j) (λ i. f (first j + i)))) }
    ensures tiles { (n b : ℕ) (f : ℕ → Result A E) → 1 ≤ b → each n f ≡ joined (each b (λ j. each (begin n b (j + 1) - begin n b j) (λ i. f (begin n b j + i)))) }
{}

/// What is combined from the first element to the last, beginning with the unit; a scan has each number on the way.
pub fn combines()
    ensures fold { (op : Op) (stage : ℕ) (a : List ℤ) (c : ℕ → ℤ) → Combines op a c → fold_all op stage a ≡ settle stage (c (length a)) }
    ensures scan { (op : Op) (stage : ℕ) (a : List ℤ) (c : ℕ → ℤ) → Combines op a c → IsEach (length a) (λ i. settle stage (c (i + 1))) (scan_all op stage a) }
    ensures answer { (op : Op) (stage : ℕ) (a : List ℤ) (c : ℕ → ℤ) (r : Result (List ℤ) Fault) → Combines op a c → IsEach (length a) (λ i. settle stage (c (i + 1))) r → scan_all op stage a ≡ r }
    ensures one { (op : Op) (a : List ℤ) (c d : ℕ → ℤ) → Combines op a c → Combines op a d → (i : ℕ) → i ≤ length a → c i ≡ d i }
{}

/// The function takes its last value and the next element, up to the end or the first fault.
pub fn passes()
    ensures whole { (u : Function) (stage : ℕ) (s : ℤ) (a : List ℤ) (g : ℕ → ℤ) → Passes u s a (length a) g → foldl_all u stage s a ≡ Ok (g (length a)) }
    ensures fault { (u : Function) (stage : ℕ) (s : ℤ) (a : List ℤ) (g : ℕ → ℤ) (i : ℕ) (e : EvalFault) → i < length a → Passes u s a i g → u (g i ∷ at a i ∷ []) ≡ Err e → foldl_all u stage s a ≡ at_stage stage (Err e) }
    ensures one { (u : Function) (s : ℤ) (a : List ℤ) (n : ℕ) (g h : ℕ → ℤ) → Passes u s a n g → Passes u s a n h → (i : ℕ) → i ≤ n → g i ≡ h i }
    ensures parts { (u : Function) (stage : ℕ) (s : ℤ) (a c : List ℤ) → MatchResult (foldl_all u stage s a) (λ g. foldl_all u stage s (a ++ c) ≡ foldl_all u stage g c) (λ e. foldl_all u stage s (a ++ c) ≡ Err e) }
{}

/// An element goes to the place that the function gives for its own.
pub fn permutes()
    ensures moves { (u : Function) (stage : ℕ) (a : List ℤ) → IsBijection u (length a) → MatchResult (permute u stage a) (λ moved. MovesElements u a moved) (λ e. ⊥) }
    ensures fault { (u : Function) (stage : ℕ) (a : List ℤ) (e : EvalFault) → FaultsFirst u (length a) e → permute u stage a ≡ at_stage stage (Err e) }
    ensures refused { (u : Function) (stage : ℕ) (a : List ℤ) → (permute u stage a ≡ Err (NotPermutation stage)) ↔ (AnswersBelow u (length a) × ¬ IsBijection u (length a)) }
    ensures one { (u : Function) (a x y : List ℤ) → IsBijection u (length a) → MovesElements u a x → MovesElements u a y → x ≡ y }
    ensures answer { (u : Function) (stage : ℕ) (a moved : List ℤ) → IsBijection u (length a) → MovesElements u a moved → permute u stage a ≡ Ok moved }
{}

/// A block goes to the place that the function gives for its own, where all blocks are of one size.
pub fn permutes_blocks()
    ensures moves { (u : Function) (stage b : ℕ) (a : List ℤ) → length a % b ≡ 0 → IsBijection u b → MatchResult (permute_partition u stage b a) (λ moved. MovesBlocks u b (length a / b) a moved) (λ e. ⊥) }
    ensures ragged { (u : Function) (stage b : ℕ) (a : List ℤ) → (permute_partition u stage b a ≡ Err (Ragged stage)) ↔ (length a % b ≢ 0) }
    ensures fault { (u : Function) (stage b : ℕ) (a : List ℤ) (e : EvalFault) → length a % b ≡ 0 → FaultsFirst u b e → permute_partition u stage b a ≡ at_stage stage (Err e) }
    ensures refused { (u : Function) (stage b : ℕ) (a : List ℤ) → (permute_partition u stage b a ≡ Err (NotPermutation stage)) ↔ ((length a % b ≡ 0) × AnswersBelow u b × ¬ IsBijection u b) }
    ensures one { (u : Function) (b k : ℕ) (a x y : List ℤ) → IsBijection u b → length a ≡ b * k → MovesBlocks u b k a x → MovesBlocks u b k a y → x ≡ y }
    ensures answer { (u : Function) (stage b : ℕ) (a moved : List ℤ) → length a % b ≡ 0 → IsBijection u b → MovesBlocks u b (length a / b) a moved → permute_partition u stage b a ≡ Ok moved }
{}

/// One block stands in the place of each, where all blocks are of one size.
pub fn broadcasts()
    ensures moves { (j stage b : ℕ) (a : List ℤ) → length a % b ≡ 0 → MatchResult (broadcast_partition j stage b a) (λ repeated. RepeatsBlock j (length a / b) a repeated) (λ e. ⊥) }
    ensures ragged { (j stage b : ℕ) (a : List ℤ) → (broadcast_partition j stage b a ≡ Err (Ragged stage)) ↔ (length a % b ≢ 0) }
    ensures one { (j k : ℕ) (a x y : List ℤ) → RepeatsBlock j k a x → RepeatsBlock j k a y → x ≡ y }
    ensures answer { (j stage b : ℕ) (a repeated : List ℤ) → length a % b ≡ 0 → RepeatsBlock j (length a / b) a repeated → broadcast_partition j stage b a ≡ Ok repeated }
{}

/// In each block row the blocks move to the right and round, by what the function gives for it.
pub fn rotates_rows()
    ensures moves { (u : Function) (stage : ℕ) (m : Extent) (a : List ℤ) → m.cols % m.grid_cols ≡ 0 → AnswersBelow u m.grid_rows → MatchResult (rotate_rows u stage m a) (λ moved. RotatesRows u m (m.cols / m.grid_cols) a moved) (λ e. ⊥) }
    ensures ragged { (u : Function) (stage : ℕ) (m : Extent) (a : List ℤ) → (rotate_rows u stage m a ≡ Err (Ragged stage)) ↔ (m.cols % m.grid_cols ≢ 0) }
    ensures fault { (u : Function) (stage : ℕ) (m : Extent) (a : List ℤ) (e : EvalFault) → m.cols % m.grid_cols ≡ 0 → FaultsFirst u m.grid_rows e → rotate_rows u stage m a ≡ at_stage stage (Err e) }
    ensures one { (u : Function) (m : Extent) (a x y : List ℤ) → 1 ≤ m.grid_rows → m.cols % m.grid_cols ≡ 0 → AnswersBelow u m.grid_rows → RotatesRows u m (m.cols / m.grid_cols) a x → RotatesRows u m (m.cols / m.grid_cols) a y → x ≡ y }
    ensures answer { (u : Function) (stage : ℕ) (m : Extent) (a moved : List ℤ) → 1 ≤ m.grid_rows → m.cols % m.grid_cols ≡ 0 → AnswersBelow u m.grid_rows → RotatesRows u m (m.cols / m.grid_cols) a moved → rotate_rows u stage m a ≡ Ok moved }
    ensures blocks { (u : Function) (m : Extent) (w : ℕ) (a moved : List ℤ) → m.cols ≡ m.grid_cols * w → length moved ≡ m.rows * m.cols → ((r q t s : ℕ) (by : ℤ) → r < m.rows → q < m.grid_cols → t < w → s < m.grid_rows → IsInBlock m.rows m.grid_rows s r → u (pos s ∷ []) ≡ Ok by → cell m.cols moved r (modulo (pos q +ℤ by) m.grid_cols * w + t) ≡ cell m.cols a r (q * w + t)) → RotatesRows u m w a moved }
{}

/// In each block column the blocks move down and round, by what the function gives for it.
pub fn rotates_cols()
    ensures moves { (u : Function) (stage : ℕ) (m : Extent) (a : List ℤ) → m.rows % m.grid_rows ≡ 0 → AnswersBelow u m.grid_cols → MatchResult (rotate_cols u stage m a) (λ moved. RotatesCols u m (m.rows / m.grid_rows) a moved) (λ e. ⊥) }
    ensures ragged { (u : Function) (stage : ℕ) (m : Extent) (a : List ℤ) → (rotate_cols u stage m a ≡ Err (Ragged stage)) ↔ (m.rows % m.grid_rows ≢ 0) }
    ensures fault { (u : Function) (stage : ℕ) (m : Extent) (a : List ℤ) (e : EvalFault) → m.rows % m.grid_rows ≡ 0 → FaultsFirst u m.grid_cols e → rotate_cols u stage m a ≡ at_stage stage (Err e) }
    ensures one { (u : Function) (m : Extent) (a x y : List ℤ) → 1 ≤ m.grid_cols → m.rows % m.grid_rows ≡ 0 → AnswersBelow u m.grid_cols → RotatesCols u m (m.rows / m.grid_rows) a x → RotatesCols u m (m.rows / m.grid_rows) a y → x ≡ y }
    ensures answer { (u : Function) (stage : ℕ) (m : Extent) (a moved : List ℤ) → 1 ≤ m.grid_cols → m.rows % m.grid_rows ≡ 0 → AnswersBelow u m.grid_cols → RotatesCols u m (m.rows / m.grid_rows) a moved → rotate_cols u stage m a ≡ Ok moved }
    ensures blocks { (u : Function) (m : Extent) (h : ℕ) (a moved : List ℤ) → m.rows ≡ m.grid_rows * h → length moved ≡ m.rows * m.cols → ((q t c s : ℕ) (by : ℤ) → q < m.grid_rows → t < h → c < m.cols → s < m.grid_cols → IsInBlock m.cols m.grid_cols s c → u (pos s ∷ []) ≡ Ok by → cell m.cols moved (modulo (pos q +ℤ by) m.grid_rows * h + t) c ≡ cell m.cols a (q * h + t) c) → RotatesCols u m h a moved }
{}

/// At row c, column r stands the element of row r, column c.
pub fn transposes()
    ensures moves { (m : Extent) (a : List ℤ) → Transposes m a (transpose m a) }
    ensures one { (m : Extent) (a x y : List ℤ) → Transposes m a x → Transposes m a y → x ≡ y }
    ensures answer { (m : Extent) (a turned : List ℤ) → Transposes m a turned → transpose m a ≡ turned }
{}
