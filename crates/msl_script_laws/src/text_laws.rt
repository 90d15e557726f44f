//! Laws of the text of a script. Each function here is empty, and its contract is the law.

ghost use Rattle.std.specs.Prelude.{◌≡◌, codes};
ghost use Rattle.msl_lex.specs.Printing.{text_of};
ghost use Rattle.msl_script_laws.specs.Canonical.{canonical};
ghost use Rattle.msl_script_laws.specs.Constructs.{every, every_text};
ghost use Rattle.msl_script_laws.specs.Meanings.{moved, deviations, squares_in_turn, range, broken, pairs};
ghost use Rattle.msl_script_laws.specs.Rows.{squares, squares_text, sums, sums_text};
ghost use Rattle.msl_grammar.specs.ScriptGrammar.{ReadsAs};
ghost use Rattle.msl_program.specs.ScriptPromise.{IsScript};
ghost use Rattle.msl_script_print.specs.ScriptText.{script_bits, OpensFewIn};
ghost use Rattle.msl_program.specs.declared.script.Script.{Script};

/// Some scripts and their texts.
pub fn texts()
    ensures squares { text_of (script_bits squares) ≡ squares_text }
    ensures sums { text_of (script_bits sums) ≡ sums_text }
    ensures every { text_of (script_bits every) ≡ every_text }
    ensures blocks { canonical moved ≡ codes "muesli 1;\nfun nxt(i) = (i + 1) % 3;\ndata t {\n  a = array 3;\n  b = permutePartition nxt a;\n  give b;\n}\nmain = data t on 2;\n" }
    ensures given { canonical deviations ≡ codes "muesli 1;\nfun dev(s, x) = (4 * x) - s;\ndata d {\n  a = array 2;\n  s = fold sum a;\n  b = map dev(s) a;\n  give b;\n}\nmain = farm 2 { data d on 2 };\n" }
    ensures piped { canonical squares_in_turn ≡ squares_in_turn }
    ensures divided { canonical range ≡ codes "muesli 1;\nfun tiny(a, b) = (b - a) <= 1;\nfun one(a, b) = if (b - a) == 1 then a else 0;\nfun half(a, b, j) = [if j == 0 then a else (a + b) / 2, if j == 0 then (a + b) / 2 else b];\nfun add(x, y) = x + y;\ndivcon range {\n  parts 2;\n  cutoff 3;\n  simple tiny;\n  solve one;\n  divide half;\n  combine add;\n}\nmain = divcon range on 2;\n" }
    ensures searched { canonical broken ≡ codes "muesli 1;\nfun low(x) = -x;\nfun ok(x) = x == 2;\nfun val(x) = 0;\nfun kids(x) = if x < 2 then 1 else 0;\nfun step(x, k) = x + 1;\nbnb bad {\n  bound low;\n  solved ok;\n  value val;\n  count kids;\n  branch step;\n}\nmain = bnb bad on 1;\n" }
    ensures filtered { canonical pairs ≡ codes "muesli 1;\nfun cnt(h, v, x) = h;\nfun both(h, v, x, k) = [v, x];\nfun turn(h, v, x) = [1 - h, x];\nfun rest(h, v) = h;\nfun held(h, v, k) = v;\nfilter pairs {\n  state 0, 0;\n  count cnt;\n  item both;\n  next turn;\n  flush rest;\n  last held;\n}\nmain = filter pairs;\n" }
{}

/// The text of a script that keeps the rules, and whose expressions open few, is read as the script.
pub fn text_reads_back()
    ensures { (s : Script) → IsScript s → OpensFewIn s → ReadsAs (text_of (script_bits s)) s }
{}
