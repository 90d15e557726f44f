//! Worked examples of what a function means and costs, and of its rules. Each function here is empty, and its
//! contract is the example.

ghost use Rattle.std.specs.Prelude.{◌≡◌, ℕ, ◌+◌, ◌<◌, ◌≤◌, ◌++◌, length, ℤ, pos, negsuc, [], ◌∷◌, List, Ok, Err, IsTrue, not, codes, Some, None};
ghost use Rattle.msl_fun.specs.Meaning.{Counted, mean, counted, give, both, limited, operated};
ghost use Rattle.msl_fun.specs.declared.expr.BinOp.{BinOp};
ghost use Rattle.msl_fun.specs.declared.funs.Fun.{Fun};
ghost use Rattle.msl_lex.specs.Names.{is_name};
ghost use Rattle.msl_fun.specs.Checks.{MayFollow, AreFuns, names_after_results};
ghost use Rattle.msl_muscle_laws.specs.Rows.{sum_below, last_below, by_zero, shorts, calls, funs};
ghost use Rattle.msl_muscle_laws.specs.Texts.{fun_of_text, square, differences};
ghost use Rattle.msl_lex.specs.declared.kind.Kind.TheVariants.{Expected, Twice, Unknown, Width};
ghost use Rattle.msl_fun.specs.declared.expr.BinOp.TheVariants.{Add, Sub, Mul, Div, Rem, Lt, Min, Max};
ghost use Rattle.msl_fun.specs.declared.fault.EvalFault.TheVariants.{Overflow, DivZero, Steps};

/// A loop of n turns of three nodes each costs three nodes more.
pub fn loops()
    ensures sum { mean funs 0 (pos 5 ∷ []) ≡ counted (Ok (pos 10 ∷ [])) 18 }
    ensures longer { mean funs 0 (pos 100 ∷ []) ≡ counted (Ok (pos 4950 ∷ [])) 303 }
    ensures last { mean funs 1 (pos 7 ∷ []) ≡ counted (Ok (pos 6 ∷ [])) 10 }
    ensures none { mean funs 0 (negsuc 3 ∷ []) ≡ counted (Ok (pos 0 ∷ [])) 3 }
{}

/// The cost of a loop that gives its last number, by the number of turns.
pub fn long_loops()
    ensures { (n : ℕ) → mean (last_below ∷ []) 0 (pos (n + 1) ∷ []) ≡ counted (Ok (pos n ∷ [])) (n + 4) }
{}

/// The examples meet the rules on functions.
pub fn rules()
    ensures g { MayFollow [] sum_below }
    ensures h { MayFollow (sum_below ∷ []) last_below }
    ensures f { MayFollow (sum_below ∷ last_below ∷ []) by_zero }
    ensures b { MayFollow (sum_below ∷ last_below ∷ by_zero ∷ []) shorts }
    ensures c { MayFollow (sum_below ∷ last_below ∷ by_zero ∷ shorts ∷ []) calls }
{}

/// The first fault from left to right is the outcome.
pub fn faults()
    ensures by_zero { mean funs 2 (pos 1 ∷ []) ≡ counted (Err DivZero) 4 }
    ensures second { mean funs 3 (pos 1 ∷ pos 0 ∷ []) ≡ counted (Err DivZero) 5 }
    ensures negated { mean funs 4 (negsuc 9223372036854775807 ∷ []) ≡ counted (Err Overflow) 3 }
{}

/// `and` and `or` begin no node of the second operand where the first decides.
pub fn short_circuits()
    ensures skipped { mean funs 3 (pos 0 ∷ pos 0 ∷ []) ≡ counted (Ok (pos 0 ∷ pos 1 ∷ [])) 5 }
    ensures both { mean funs 3 (pos 5 ∷ pos 1 ∷ []) ≡ counted (Ok (pos 1 ∷ pos 1 ∷ [])) 11 }
    ensures neither { mean funs 3 (pos 5 ∷ pos 3 ∷ []) ≡ counted (Ok (pos 0 ∷ pos 0 ∷ [])) 11 }
{}

/// A call costs its own node, its arguments and what it evaluates in the function.
pub fn calls_of_functions()
    ensures below { mean funs 4 (pos 4 ∷ []) ≡ counted (Ok (pos 10 ∷ [])) 29 }
    ensures above { mean funs 4 (negsuc 4 ∷ []) ≡ counted (Ok (pos 10 ∷ [])) 27 }
{}

/// Division truncates toward zero, and a remainder has the sign of the first number.
pub fn numbers()
    ensures quotient { operated Div (negsuc 6) (pos 2) ≡ Ok (negsuc 2) }
    ensures remainder { operated Rem (pos 7) (negsuc 1) ≡ Ok (pos 1) }
    ensures negative { operated Rem (negsuc 6) (pos 2) ≡ Ok (negsuc 0) }
    ensures least { operated Rem (negsuc 9223372036854775807) (negsuc 0) ≡ Err Overflow }
{}

/// A name is a word of at most 64 bytes that the grammar doesn't quote.
pub fn names()
    ensures word { IsTrue (is_name (codes "_x1")) }
    ensures digit { IsTrue (not (is_name (codes "1x"))) }
    ensures reserved { IsTrue (not (is_name (codes "mapIndex"))) }
    ensures unused { names_after_results [] sum_below.results sum_below.params (codes "i" ∷ codes "a" ∷ codes "b" ∷ []) ≡ Some (codes "b" ∷ []) }
    ensures twice { names_after_results [] sum_below.results sum_below.params (codes "i" ∷ codes "n" ∷ []) ≡ None }
{}

/// A function that is added later changes no meaning.
pub fn added_later()
    ensures { (funs : List Fun) (f : Fun) (at : ℕ) (args : List ℤ) → at < length funs → mean (funs ++ f ∷ []) at args ≡ mean funs at args }
{}

/// At most 10,000,000 nodes may be begun, those of a fault included.
pub fn limits()
    ensures within { (m : Counted (List ℤ)) → m.begun ≤ 10000000 → limited 0 m ≡ m.outcome }
    ensures above { (m : Counted (List ℤ)) → 10000000 < m.begun → limited 0 m ≡ Err Steps }
{}

/// Where both operands have values, `and` and `or` too are operators of two numbers.
pub fn operands()
    ensures { (op : BinOp) (a b : ℤ) → (both op (give a) (give b)).outcome ≡ operated op a b }
{}

/// What some texts of one function are read as: the function, or the first refusal with its place.
pub fn readings()
    ensures square { fun_of_text [] (codes "fun f(x) = x * x;") ≡ Ok square }
    ensures left { fun_of_text [] (codes "fun f(x) = 1 - x - 2;") ≡ Ok differences }
    ensures expected { fun_of_text [] (codes "fun f(x) = ;") ≡ Err (Expected, 11) }
    ensures unknown { fun_of_text [] (codes "fun f(x) = let y = y in y;") ≡ Err (Unknown, 19) }
    ensures twice { fun_of_text [] (codes "fun f(x, x) = x;") ≡ Err (Twice, 9) }
    ensures width { fun_of_text (sum_below ∷ []) (codes "fun f(x) = g(x, 1);") ≡ Err (Width, 11) }
{}
