//! Worked examples of the operations on whole lists. Each function is empty, and its contract is the examples.

ghost use Rattle.std.specs.Prelude.{◌≡◌, ◌≢◌, ◌↔◌, ℕ, ◌+◌, ◌/◌, ◌%◌, ◌<◌, ◌≤◌, ℤ, pos, negsuc, List, [], ◌∷◌, ◌++◌, map, length, Result, Ok, Err, MatchResult, codes};
ghost use Rattle.msl_base.specs.declared.fault.Fault.TheVariants.{Shape, Overflow, DivZero, Steps, NotPermutation, Ragged};
ghost use Rattle.msl_ops.specs.declared.op.Op.{Op};
ghost use Rattle.msl_ops.specs.Meaning.{settle};
ghost use Rattle.msl_fun.specs.declared.fault.EvalFault.{EvalFault};
ghost use Rattle.msl_fun.specs.declared.funs.Fun.{Fun};
ghost use Rattle.msl_fun.specs.Meaning.{mean, Answers};
ghost use Rattle.msl_base.specs.Blocks.{AreTiles, IsInBlock};
ghost use Rattle.msl_lists.specs.Whole.{Function, Extent, use_of, at_stage, at, map_all, map_index, map_cells, zip_all, zip_index, zip_cells, fold_all, scan_all, foldl_all, permute, permute_partition, broadcast_partition, rotate_rows, rotate_cols, transpose};
ghost use Rattle.msl_base.specs.Blocks.{block_of};
ghost use Rattle.msl_lists.specs.WholeLaws.{IsEach, IsEachPair, Combines, Passes, AnswersBelow, FaultsFirst, IsBijection, MovesElements, MovesBlocks, RepeatsBlock, RotatesRows, RotatesCols, Transposes};
ghost use Rattle.msl_muscle_laws.specs.WholeTexts.{function, sum, gcd, four_by_four, three_by_two, one_by_three};

/// Element by element; the function may have its first arguments given.
pub fn elements()
    ensures map { map_all (function (codes "fun f(x) = x * x;") []) 1 (map pos (1 ∷ 2 ∷ 3 ∷ [])) ≡ Ok (map pos (1 ∷ 4 ∷ 9 ∷ [])) }
    ensures given { map_all (function (codes "fun f(c, x) = c - x;") (pos 10 ∷ [])) 1 (map pos (1 ∷ 2 ∷ [])) ≡ Ok (map pos (9 ∷ 8 ∷ [])) }
    ensures index { map_index (function (codes "fun f(i, x) = i * 10 + x;") []) 1 (map pos (5 ∷ 6 ∷ [])) ≡ Ok (map pos (5 ∷ 16 ∷ [])) }
    ensures cells { map_cells (function (codes "fun f(r, c, x) = r * 100 + c * 10 + x;") []) 1 2 (map pos (1 ∷ 2 ∷ 3 ∷ 4 ∷ [])) ≡ Ok (map pos (1 ∷ 12 ∷ 103 ∷ 114 ∷ [])) }
    ensures none { map_all (function (codes "fun f(x) = x / 0;") []) 1 [] ≡ Ok [] }
{}

/// The first fault is the answer.
pub fn faults_of_elements()
    ensures by_zero { map_all (function (codes "fun f(x) = 6 / x * 4611686018427387904;") []) 3 (map pos (6 ∷ 0 ∷ 1 ∷ [])) ≡ Err (DivZero 3) }
    ensures overflow { map_all (function (codes "fun f(x) = 6 / x * 4611686018427387904;") []) 3 (map pos (6 ∷ 1 ∷ 0 ∷ [])) ≡ Err (Overflow 3) }
    ensures shape { zip_all (function (codes "fun f(x, y) = x / 0;") []) 1 (map pos (5 ∷ 6 ∷ [])) (map pos (1 ∷ [])) ≡ Err (Shape 1 1 2) }
{}

/// Two lists, element by element.
pub fn pairs()
    ensures zip { zip_all (function (codes "fun f(x, y) = x - y;") []) 1 (map pos (5 ∷ 6 ∷ [])) (map pos (1 ∷ 3 ∷ [])) ≡ Ok (map pos (4 ∷ 3 ∷ [])) }
    ensures index { zip_index (function (codes "fun f(i, x, y) = i + x * y;") []) 1 (map pos (2 ∷ 3 ∷ [])) (map pos (4 ∷ 5 ∷ [])) ≡ Ok (map pos (8 ∷ 16 ∷ [])) }
    ensures cells { zip_cells (function (codes "fun f(r, c, x, y) = r * 1000 + c * 100 + x * 10 + y;") []) 1 1 (map pos (1 ∷ 2 ∷ [])) (map pos (3 ∷ 4 ∷ [])) ≡ Ok (map pos (13 ∷ 1024 ∷ [])) }
{}

/// From the first element to the last. What is between may leave 64 bits, in a fold but not in a scan.
pub fn folds()
    ensures gcd { fold_all gcd 1 (pos 12 ∷ negsuc 17 ∷ pos 30 ∷ []) ≡ Ok (pos 6) }
    ensures none { fold_all sum 1 [] ≡ Ok (pos 0) }
    ensures between { fold_all sum 1 (pos 9223372036854775807 ∷ pos 1 ∷ negsuc 0 ∷ []) ≡ Ok (pos 9223372036854775807) }
    ensures scan { scan_all sum 1 (map pos (1 ∷ 2 ∷ 3 ∷ 4 ∷ [])) ≡ Ok (map pos (1 ∷ 3 ∷ 6 ∷ 10 ∷ [])) }
    ensures overflow { scan_all sum 2 (pos 9223372036854775807 ∷ pos 1 ∷ negsuc 0 ∷ []) ≡ Err (Overflow 2) }
    ensures foldl { foldl_all (function (codes "fun f(s, x) = s * 10 + x;") []) 1 (pos 0) (map pos (1 ∷ 2 ∷ 3 ∷ [])) ≡ Ok (pos 123) }
    ensures by_zero { foldl_all (function (codes "fun f(s, x) = s / x;") []) 1 (pos 5) (map pos (1 ∷ 0 ∷ 2 ∷ [])) ≡ Err (DivZero 1) }
{}

/// Elements and blocks change places.
pub fn places()
    ensures permute { permute (function (codes "fun f(i) = (i + 1) % 3;") []) 1 (map pos (7 ∷ 8 ∷ 9 ∷ [])) ≡ Ok (map pos (9 ∷ 7 ∷ 8 ∷ [])) }
    ensures blocks { permute_partition (function (codes "fun f(i) = (i + 1) % 3;") []) 1 3 (map pos (10 ∷ 11 ∷ 12 ∷ 13 ∷ 14 ∷ 15 ∷ [])) ≡ Ok (map pos (14 ∷ 15 ∷ 10 ∷ 11 ∷ 12 ∷ 13 ∷ [])) }
    ensures broadcast { broadcast_partition 1 1 3 (map pos (10 ∷ 11 ∷ 12 ∷ 13 ∷ 14 ∷ 15 ∷ [])) ≡ Ok (map pos (12 ∷ 13 ∷ 12 ∷ 13 ∷ 12 ∷ 13 ∷ [])) }
{}

/// Blocks of two sizes are refused before all else, a fault of the function before places that are taken twice or not there.
pub fn refused_places()
    ensures twice { permute (function (codes "fun f(i) = i / 2;") []) 1 (map pos (7 ∷ 8 ∷ 9 ∷ [])) ≡ Err (NotPermutation 1) }
    ensures outside { permute (function (codes "fun f(i) = i + 1;") []) 1 (map pos (7 ∷ 8 ∷ 9 ∷ [])) ≡ Err (NotPermutation 1) }
    ensures block { permute_partition (function (codes "fun f(i) = 0;") []) 4 2 (map pos (7 ∷ 8 ∷ [])) ≡ Err (NotPermutation 4) }
    ensures fault { permute_partition (function (codes "fun f(i) = 1 / (1 - i);") []) 1 3 (map pos (7 ∷ 8 ∷ 9 ∷ [])) ≡ Err (DivZero 1) }
    ensures ragged { permute_partition (function (codes "fun f(i) = 1 / 0;") []) 1 2 (map pos (7 ∷ 8 ∷ 9 ∷ [])) ≡ Err (Ragged 1) }
    ensures broadcast { broadcast_partition 0 1 2 (map pos (7 ∷ 8 ∷ 9 ∷ [])) ≡ Err (Ragged 1) }
{}

/// Matrices, row by row.
pub fn matrices()
    ensures right { rotate_rows (function (codes "fun f(i) = 1;") []) 1 one_by_three (map pos (1 ∷ 2 ∷ 3 ∷ [])) ≡ Ok (map pos (3 ∷ 1 ∷ 2 ∷ [])) }
    ensures rows { rotate_rows (function (codes "fun f(i) = -i;") []) 1 four_by_four (map pos (0 ∷ 1 ∷ 2 ∷ 3 ∷ 4 ∷ 5 ∷ 6 ∷ 7 ∷ 8 ∷ 9 ∷ 10 ∷ 11 ∷ 12 ∷ 13 ∷ 14 ∷ 15 ∷ [])) ≡ Ok (map pos (0 ∷ 1 ∷ 2 ∷ 3 ∷ 4 ∷ 5 ∷ 6 ∷ 7 ∷ 10 ∷ 11 ∷ 8 ∷ 9 ∷ 14 ∷ 15 ∷ 12 ∷ 13 ∷ [])) }
    ensures uneven { rotate_rows (function (codes "fun f(i) = i;") []) 1 three_by_two (map pos (1 ∷ 2 ∷ 3 ∷ 4 ∷ 5 ∷ 6 ∷ [])) ≡ Ok (map pos (1 ∷ 2 ∷ 3 ∷ 4 ∷ 6 ∷ 5 ∷ [])) }
    ensures cols { rotate_cols (function (codes "fun f(i) = i;") []) 1 four_by_four (map pos (0 ∷ 1 ∷ 2 ∷ 3 ∷ 4 ∷ 5 ∷ 6 ∷ 7 ∷ 8 ∷ 9 ∷ 10 ∷ 11 ∷ 12 ∷ 13 ∷ 14 ∷ 15 ∷ [])) ≡ Ok (map pos (0 ∷ 1 ∷ 10 ∷ 11 ∷ 4 ∷ 5 ∷ 14 ∷ 15 ∷ 8 ∷ 9 ∷ 2 ∷ 3 ∷ 12 ∷ 13 ∷ 6 ∷ 7 ∷ [])) }
    ensures ragged { rotate_cols (function (codes "fun f(i) = 1 / 0;") []) 1 three_by_two (map pos (1 ∷ 2 ∷ 3 ∷ 4 ∷ 5 ∷ 6 ∷ [])) ≡ Err (Ragged 1) }
    ensures transpose { transpose three_by_two (map pos (1 ∷ 2 ∷ 3 ∷ 4 ∷ 5 ∷ 6 ∷ [])) ≡ map pos (1 ∷ 3 ∷ 5 ∷ 2 ∷ 4 ∷ 6 ∷ []) }
{}
