//! Laws of the text of a function. Each function here is empty, and its contract is the law.

ghost use Rattle.std.specs.Prelude.{◌≡◌, List, [], ◌∷◌, ◌++◌, map, Ok, codes, false, IsTrue};
ghost use Rattle.msl_lex.specs.Lexemes.{Lexeme};
ghost use Rattle.msl_lex.specs.Printing.{Bit, text_of, forms_of, is_laid};
ghost use Rattle.msl_muscle_laws.specs.Rows.{sum_below, shorts, calls, funs};
ghost use Rattle.msl_muscle_laws.specs.Texts.{square, differences, nested};
ghost use Rattle.msl_fun.specs.declared.funs.Fun.{Fun};
ghost use Rattle.msl_base.specs.Names.{Text, is_among};
ghost use Rattle.msl_fun.specs.Checks.{AreFuns, MayFollow};
ghost use Rattle.msl_fun_read.specs.Grammar.{read_fun};
ghost use Rattle.msl_fun_print.specs.FunText.{fun_bits, OpensFew};

/// Some functions and their texts.
pub fn texts()
    ensures square { text_of (fun_bits [] square) ≡ codes "fun f(x) = x * x;" }
    ensures left { text_of (fun_bits [] differences) ≡ codes "fun f(x) = (1 - x) - 2;" }
    ensures sum { text_of (fun_bits [] sum_below) ≡ codes "fun g(n) = loop i below n, a = 0 in a + i;" }
    ensures two { text_of (fun_bits [] shorts) ≡ codes "fun b(x, y) = [x and (2 / y), (not x) or (2 / y)];" }
    ensures calls { text_of (fun_bits funs calls) ≡ codes "fun c(x) = let m = -x in if m < 0 then g(m + 9) else g(m);" }
    ensures nested { text_of (fun_bits [] nested) ≡ codes "fun f(x) = -(-min(not (let y = x in y), max(x, if x then 1 else 2) + 3));" }
{}

/// The text of a function that meets the rules, whose name isn't declared for another thing and whose expressions open
/// few, is read as the function, whatever is behind it.
pub fn text_is_read_back()
    ensures { (funs : List Fun) (others : List Text) (f : Fun) (front rest : List Lexeme) (t : Lexeme) → AreFuns funs → MayFollow funs f → is_among others f.name ≡ false → OpensFew f → map (λ t. t.form) front ≡ forms_of (fun_bits funs f) → read_fun funs others (front ++ t ∷ rest) ≡ Ok (f, t ∷ rest) }
{}

/// Each of its tokens can be spelt, and stays what it is beside the next.
pub fn text_is_laid_out()
    ensures { (funs : List Fun) (f : Fun) (more : List Bit) → AreFuns funs → MayFollow funs f → IsTrue (is_laid more) → IsTrue (is_laid (fun_bits funs f ++ more)) }
{}
