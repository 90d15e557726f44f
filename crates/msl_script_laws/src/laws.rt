//! Worked examples of what texts are read as, of what scripts make of streams, and of how many processes they need.
//! Each function here is empty, and its contract is the examples.

ghost use Rattle.std.specs.Prelude.{◌≡◌, ℕ, List, pos, negsuc, [], ◌∷◌, ◌++◌, codes, take, Some, Ok, Err};
ghost use Rattle.msl_lex.specs.declared.kind.Kind.TheVariants.{Expected, Version, InFarm, Unknown, Width, Number};
ghost use Rattle.msl_read.specs.Reading.{Refusal};
ghost use Rattle.msl_program.specs.Script.{Script};
ghost use Rattle.msl_grammar.specs.ScriptGrammar.{ReadsAs, ReadsTo, reading, script_of_text, script_rule, whole};
ghost use Rattle.msl_lex.specs.Lexemes.{Lexeme};
ghost use Rattle.msl_lex.specs.Spelling.{AreSpelt};
ghost use Rattle.msl_program.specs.Fitting.{IsWhole};
ghost use Rattle.msl_program.specs.ScriptPromise.{IsScript};
ghost use Rattle.msl_script_read.specs.ScriptReading.{HasReading, IsRefusedAs};
ghost use Rattle.msl_base.specs.Streams.{stream, done, failed, unread};
ghost use Rattle.msl_base.specs.declared.fault.Fault.TheVariants.{Ragged, Overflow, DivZero, Count, Depth, BoundBroken};
ghost use Rattle.msl_script_laws.specs.Meanings.{made_by, made_of, needed_by, totals, moved, deviations, turned, squares_in_turn, range, picking, pick, broken, pairs, mixed, copies, endless, halves, zeros, MayAnswer, MayDrop, two, faulty};
ghost use Rattle.msl_script_laws.specs.Constructs.{every, every_text};
ghost use Rattle.msl_script_laws.specs.Rows.{head, squares_text, squares, sums_text, sums};

/// A text is a script or is refused, and never both; it is one script at most. It is read as what is computed of it.
pub fn one_reading(text: &[u8])
    ensures some { HasReading text.now }
    ensures apart { (s : Script) (r : Refusal) → ReadsAs text.now s → IsRefusedAs text.now r → ⊥ }
    ensures one { (s t : Script) → ReadsAs text.now s → ReadsAs text.now t → s ≡ t }
    ensures computed { ReadsTo text.now (script_of_text text.now) }
{}

/// Texts that are scripts.
pub fn scripts()
    ensures squares { script_of_text squares_text ≡ Ok squares }
    ensures last_line_cut { script_of_text (take 46 squares_text) ≡ Ok squares }
    ensures sums { script_of_text sums_text ≡ Ok sums }
    ensures every { script_of_text every_text ≡ Ok every }
{}

/// Texts that are refused, with the first refusal and its place.
pub fn refusals()
    ensures nothing { script_of_text [] ≡ Err (Expected, 0) }
    ensures begun { script_of_text (take 3 squares_text) ≡ Err (Expected, 0) }
    ensures word { script_of_text (take 7 squares_text) ≡ Err (Expected, 7) }
    ensures name { script_of_text (take 44 squares_text) ≡ Err (Unknown, 43) }
    ensures end { script_of_text (take 45 squares_text) ≡ Err (Expected, 45) }
    ensures in_farm { script_of_text (head ++ codes "main = farm 2 { filter f };\n") ≡ Err (InFarm, 45) }
    ensures second_main { script_of_text (squares_text ++ codes "main = atomic sq;\n") ≡ Err (Expected, 47) }
    ensures unknown { script_of_text (head ++ codes "main = atomic sr;\n") ≡ Err (Unknown, 43) }
    ensures unfinished { script_of_text (codes "muesli 1;\nmain =") ≡ Err (Expected, 16) }
    ensures number { script_of_text (codes "muesli 1;\nfun f(x) = x + 9223372036854775808;\nmain = atomic f;\n") ≡ Err (Number, 25) }
    ensures version { script_of_text (codes "muesli 2;\n") ≡ Err (Version, 7) }
{}

/// What scripts make of streams, in the order of `seq`.
pub fn meanings()
    ensures scan { made_by sums_text ((pos 1 ∷ pos 2 ∷ pos 3 ∷ []) ∷ []) ≡ stream ((pos 1 ∷ pos 3 ∷ pos 6 ∷ []) ∷ []) done }
    ensures fold { made_by totals ((pos 9223372036854775807 ∷ pos 1 ∷ negsuc 0 ∷ []) ∷ []) ≡ stream ((pos 9223372036854775807 ∷ []) ∷ []) done }
    ensures blocks { made_by moved ((pos 1 ∷ pos 2 ∷ pos 3 ∷ pos 4 ∷ pos 5 ∷ pos 6 ∷ []) ∷ []) ≡ stream ((pos 5 ∷ pos 6 ∷ pos 1 ∷ pos 2 ∷ pos 3 ∷ pos 4 ∷ []) ∷ []) done }
    ensures ragged { made_by moved ((pos 1 ∷ pos 2 ∷ pos 3 ∷ pos 4 ∷ []) ∷ []) ≡ stream [] (failed (Ragged 1)) }
    ensures given { made_by deviations ((pos 1 ∷ pos 2 ∷ pos 3 ∷ pos 6 ∷ []) ∷ []) ≡ stream ((negsuc 7 ∷ negsuc 3 ∷ pos 0 ∷ pos 12 ∷ []) ∷ []) done }
    ensures rotated { made_by turned ((pos 0 ∷ pos 1 ∷ pos 2 ∷ pos 3 ∷ pos 4 ∷ pos 5 ∷ pos 6 ∷ pos 7 ∷ pos 8 ∷ pos 9 ∷ pos 10 ∷ pos 11 ∷ pos 12 ∷ pos 13 ∷ pos 14 ∷ pos 15 ∷ []) ∷ []) ≡ stream ((pos 0 ∷ pos 1 ∷ pos 2 ∷ pos 3 ∷ pos 4 ∷ pos 5 ∷ pos 6 ∷ pos 7 ∷ pos 10 ∷ pos 11 ∷ pos 8 ∷ pos 9 ∷ pos 14 ∷ pos 15 ∷ pos 12 ∷ pos 13 ∷ []) ∷ []) done }
    ensures piped { made_by squares_in_turn ((pos 2 ∷ []) ∷ (pos 55109 ∷ []) ∷ []) ≡ stream ((pos 16 ∷ []) ∷ []) (failed (Overflow 2)) }
    ensures farmed_pipe { made_by (head ++ codes "main = farm 2 { pipe { atomic sq; atomic sq } };\n") ((pos 2 ∷ []) ∷ (pos 55109 ∷ []) ∷ []) ≡ stream ((pos 16 ∷ []) ∷ []) (failed (Overflow 2)) }
    ensures farmed_farm { made_by (head ++ codes "main = farm 2 { farm 3 { atomic sq } };\n") ((pos 2 ∷ []) ∷ (pos 3 ∷ []) ∷ []) ≡ stream ((pos 4 ∷ []) ∷ (pos 9 ∷ []) ∷ []) done }
    ensures divided { made_by range ((pos 0 ∷ pos 10 ∷ []) ∷ (pos 0 ∷ pos 0 ∷ []) ∷ []) ≡ stream ((pos 45 ∷ []) ∷ (pos 0 ∷ []) ∷ []) done }
    ensures filtered { made_by pairs ((pos 1 ∷ []) ∷ (pos 2 ∷ []) ∷ (pos 3 ∷ []) ∷ []) ≡ stream ((pos 1 ∷ pos 2 ∷ []) ∷ (pos 3 ∷ []) ∷ []) done }
    ensures searched { made_by pick ((pos 0 ∷ pos 0 ∷ pos 0 ∷ pos 7 ∷ []) ∷ []) ≡ stream ((pos 9 ∷ pos 3 ∷ pos 9 ∷ pos 7 ∷ pos 7 ∷ []) ∷ []) done }
    ensures fruitless { made_by pick ((pos 0 ∷ pos 0 ∷ pos 0 ∷ pos 16 ∷ []) ∷ []) ≡ stream ([] ∷ []) done }
    ensures broken { made_by broken ((pos 0 ∷ []) ∷ []) ≡ stream [] (failed (BoundBroken 1 (0 ∷ []))) }
{}

/// A filter gives at the end of its input only where that is whole, and nothing of a record with a fault.
pub fn filters()
    ensures failed_input { made_of pairs (stream ((pos 1 ∷ []) ∷ (pos 2 ∷ []) ∷ (pos 3 ∷ []) ∷ []) (failed (Overflow 1))) ≡ stream ((pos 1 ∷ pos 2 ∷ []) ∷ []) (failed (Overflow 1)) }
    ensures unread_input { made_of pairs (stream ((pos 1 ∷ []) ∷ (pos 2 ∷ []) ∷ (pos 3 ∷ []) ∷ []) unread) ≡ stream ((pos 1 ∷ pos 2 ∷ []) ∷ []) unread }
    ensures many { made_by copies ((pos 1 ∷ []) ∷ (pos 65 ∷ []) ∷ (pos 1 ∷ []) ∷ []) ≡ stream ((pos 3 ∷ []) ∷ []) (failed (Count 1)) }
    ensures second_item { made_by copies ((pos 1 ∷ []) ∷ (pos 2 ∷ []) ∷ (pos 1 ∷ []) ∷ []) ≡ stream ((pos 3 ∷ []) ∷ []) (failed (DivZero 1)) }
{}

/// A division goes 64 levels down and no further, and has all parts of a problem before the value of any.
pub fn divisions()
    ensures depth { made_by endless ((pos 1 ∷ []) ∷ []) ≡ stream [] (failed (Depth 1 (zeros 64))) }
    ensures part_0 { made_by halves ((pos 7 ∷ []) ∷ []) ≡ stream [] (failed (Overflow 1)) }
    ensures part_1 { made_by halves ((pos 1 ∷ []) ∷ []) ≡ stream [] (failed (DivZero 1)) }
{}

/// What searches may answer: any best solution, and it over a fault where a node on the way to the fault may be dropped
/// for it; or the fault.
pub fn searches()
    ensures first { MayAnswer two (pos 0 ∷ []) (Ok (pos 5 ∷ pos 1 ∷ [])) }
    ensures second { MayAnswer two (pos 0 ∷ []) (Ok (pos 5 ∷ pos 2 ∷ [])) }
    ensures below_dropped { MayAnswer faulty (pos 0 ∷ pos 4 ∷ []) (Ok (pos 3 ∷ pos 1 ∷ pos 4 ∷ [])) }
    ensures fault { MayAnswer faulty (pos 0 ∷ pos 4 ∷ []) (Err (DivZero 1)) }
    ensures not_below_dropped { MayAnswer faulty (pos 0 ∷ pos 2 ∷ []) (Ok (pos 3 ∷ pos 1 ∷ pos 2 ∷ [])) → ⊥ }
    ensures broken { MayDrop broken (pos 0 ∷ []) (0 ∷ []) (negsuc 4) → ⊥ }
{}

/// How many processes scripts need.
pub fn needs()
    ensures square { needed_by squares_text ≡ Some 2 }
    ensures farm { needed_by (head ++ codes "main = farm 3 { atomic sq };\n") ≡ Some 4 }
    ensures farmed_farm { needed_by (head ++ codes "main = farm 2 { farm 3 { atomic sq } };\n") ≡ Some 7 }
    ensures pipe { needed_by mixed ≡ Some 4 }
    ensures search { needed_by (picking ++ codes "main = farm 2 { bnb pick on 3 };\n") ≡ Some 7 }
{}

/// A script that a text reads as keeps all rules of the language. So its stages name only what is there, and no filter
/// is in a farm.
pub fn scripts_are_whole()
    ensures promise { (text : List ℕ) (s : Script) → ReadsAs text s → IsScript s }
    ensures tokens { (ts : List Lexeme) (s : Script) → AreSpelt ts → whole (reading ts script_rule) ≡ Ok s → IsScript s }
    ensures whole { (text : List ℕ) (s : Script) → ReadsAs text s → IsWhole s }
{}
