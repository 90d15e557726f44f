//! Laws of texts and their tokens. Each function is empty, and its contract is the law.

ghost use Rattle.std.specs.Prelude.{◌≡◌, [], ◌∷◌, Ok, Err, List, Result, All, IsTrue, codes, length};
ghost use Rattle.msl_lex.specs.declared.token.LexFault.TheVariants.{Byte};
ghost use Rattle.msl_lex.specs.declared.token.LexFault.{LexFault};
ghost use Rattle.msl_lex.specs.Computing.{lexemes};
ghost use Rattle.msl_lex.specs.Layout.{AreTokensOf, ReadsAs};
ghost use Rattle.msl_lex.specs.Lexemes.{Lexeme, lexeme, word, sign, number, close};
ghost use Rattle.msl_lex.specs.Printing.{Bit, is_laid, SaysAll};
ghost use Rattle.msl_lex.specs.Places.{AreInOrder, LiesWithin, ClosesLast, IsSpelt};

use crate::Tokens;

/// Each text is a gap, a token's spelling, a gap and so on, up to its end or its first fault, in one
/// way, and that is what `lexemes` computes.
pub fn text_is_laid_out(text: &[u8])
    ensures some { ReadsAs 0 text.now (lexemes text.now) }
    ensures one { (r : Result (List Lexeme) LexFault) → ReadsAs 0 text.now r → lexemes text.now ≡ r }
{}

/// The tokens of a text stand one after the other, within it; the last, and no other, is its end.
pub fn tokens_are_in_order(text: &[u8], tokens: &Tokens)
    requires { AreTokensOf text.now tokens.now }
    ensures order { AreInOrder 0 (length text.now) tokens.now }
    ensures within { All (LiesWithin (length text.now)) tokens.now }
    ensures close { ClosesLast tokens.now }
{}

/// Each token but the last is spelt by its kind, within the limits: a word has at most 64 bytes, and a
/// number is at most 9223372036854775807.
pub fn tokens_are_spelt(text: &[u8], tokens: &Tokens)
    requires { AreTokensOf text.now tokens.now }
    ensures { All (IsSpelt text.now) tokens.now }
{}

/// A text put together from tokens and blanks, where no two tokens touch that would be others then, has
/// just these tokens, and its end.
pub fn laid_text_is_read()
    ensures { (bits : List Bit) → IsTrue (is_laid bits) → SaysAll bits }
{}

/// Some texts and what they say.
pub fn examples()
    ensures nothing { lexemes [] ≡ Ok (lexeme close 0 0 ∷ []) }
    ensures fault { lexemes (codes "a?b") ≡ Err (Byte 1) }
    ensures mark { lexemes (codes "<==!") ≡ Err (Byte 3) }
    ensures tokens { lexemes (codes "ab<= 012#x") ≡ Ok (lexeme (word (codes "ab")) 0 2 ∷ lexeme (sign (codes "<=")) 2 4 ∷ lexeme (number 12) 5 8 ∷ lexeme close 10 10 ∷ []) }
{}
