// The tokens that are still to be read, and what they say.

ghost use Rattle.std.specs.Prelude.{◌≡◌, ◌≢◌, ◌≤◌, length, drop, map, slice_range, Some, None, MatchOption, IfSome, MatchResult, IsTrue, MatchBool, false, pos};
ghost use Rattle.std.specs.List.{list_all};
ghost use Rattle.msl_lex.specs.Bytes.{is_digit, value_of_digits};
ghost use Rattle.msl_lex.specs.Layout.{is_word};
ghost use Rattle.msl_lex.specs.Lexemes.{word, close, lexeme_of, longest_name, greatest_number};
ghost use Rattle.msl_lex.specs.Places.{LiesWithin};
ghost use Rattle.msl_lex.specs.declared.kind.Kind.TheVariants.{Expected};
ghost use Rattle.msl_lex.specs.declared.token.TokenKind.TheVariants as token_kind;
ghost use Rattle.msl_read.specs.declared.fault.ReadFault.TheVariants as fault;
ghost use Rattle.msl_lex.specs.Names.{is_name};
ghost use Rattle.msl_read.specs.Reading.{place, says};
ghost use Rattle.msl_read.specs.Front.{AreOpen, form, form_behind, IsNumber};
ghost use Rattle.msl_read.specs.Front.{name_in, number_in};
ghost use Rattle.msl_read.specs.Kinds.{is_close, kind_of};

use crate::ReadFault;
use msl_lex::{Kind, Token, TokenKind, is_reserved};
use std::marker::Model;

/// The tokens of a text that are still to be read, the last of them its end, seen as what they say.
#[derive(Drop)]
pub struct Cursor<'a> {
    text: &'a [u8],
    rest: &'a [Token],
}

impl<'a> Model for Cursor<'a> {
    ghost use Rattle.std.specs.Prelude.{List, map};
    ghost use Rattle.msl_lex.specs.Lexemes.{Lexeme, lexeme_of};
    ghost use Rattle.msl_read.specs.Front.{AreOpen};

    ghost Value = { List Lexeme };

    ghost view = { λ c. map (lexeme_of c.text.now) c.rest.now };

    ghost invariant = { λ c. AreOpen c.text.now c.rest.now };
}

impl<'a> Cursor<'a> {
    /// These tokens of this text.
    pub fn new(text: &'a [u8], rest: &'a [Token]) -> Self
        requires open { AreOpen text.now rest.now }
        ensures { result ≡ map (lexeme_of text.now) rest.now }
    {
        Cursor { text, rest }
    }

    /// The same tokens, to be read once more.
    pub fn again(&self) -> Cursor<'a>
        ensures { result ≡ self.now }
    {
        Cursor {
            text: self.text,
            rest: self.rest,
        }
    }

    /// How many tokens are left.
    pub fn len(&self) -> usize
        ensures len { result ≡ length self.now }
        ensures some { 1 ≤ result }
    {
        self.rest.len()
    }

    /// The place of the first token.
    pub fn place(&self) -> u32
        ensures { result ≡ place self.now }
    {
        self.rest[0].from
    }

    /// What the first token is.
    pub fn kind(&self) -> TokenKind
        ensures { result ≡ kind_of (form self.now) }
    {
        self.rest[0].kind
    }

    /// Whether nothing but the end of the text is left.
    pub fn is_over(&self) -> bool
        ensures over { result ≡ is_close (form self.now) }
        ensures some { 1 ≤ length self.now }
    {
        matches!(self.rest[0].kind, TokenKind::Close)
    }

    /// Whether the first token is this quoted text, a word or a sign.
    pub fn says(&self, text: &str) -> bool
        ensures { result ≡ says text.now (form self.now) }
    {
        let t = self.rest[0];
        match t.kind {
            TokenKind::Word | TokenKind::Sign => spelling(self.text, t) == text.as_bytes(),
            TokenKind::Number | TokenKind::Close => false,
        }
    }

    /// Takes the first token.
    pub fn advance(&mut self)
        requires { form self.old ≢ close }
        ensures { self.new ≡ drop 1 self.old }
    {
        self.rest = &self.rest[1..];
    }

    /// Takes the first token where it is this quoted text.
    pub fn take(&mut self, text: &str) -> bool
        ensures said { result ≡ says text.now (form self.old) }
        ensures taken { MatchBool result (self.new ≡ drop 1 self.old) (self.new ≡ self.old) }
    {
        let found = self.says(text);
        if found {
            self.advance();
        }
        found
    }

    /// Takes the first token, which has to be this quoted text.
    pub fn expect(&mut self, text: &str) -> Result<(), ReadFault>
        ensures { MatchResult result (λ _. IsTrue (says text.now (form self.old)) × (self.new ≡ drop 1 self.old)) (λ e. (says text.now (form self.old) ≡ false) × (e ≡ fault.At Expected (place self.old))) }
    {
        if self.take(text) {
            Ok(())
        } else {
            Err(self.unexpected())
        }
    }

    /// The refusal of the first token where it can't stand.
    pub fn unexpected(&self) -> ReadFault
        ensures { result ≡ fault.At Expected (place self.now) }
    {
        ReadFault::At(Kind::Expected, self.place())
    }

    /// The refusal of the first token by a test of this kind.
    pub fn refusal(&self, kind: Kind) -> ReadFault
        ensures { result ≡ fault.At kind (place self.now) }
    {
        ReadFault::At(kind, self.place())
    }

    /// The name that the first token is, where it is one.
    pub fn name(&self) -> Option<&'a str>
        ensures name { MatchOption result (name_in (form self.now) ≡ None) (λ n. name_in (form self.now) ≡ Some n.now) }
        ensures is_name { MatchOption result Unit (λ n. IsTrue (is_name n.now)) }
    {
        let t = self.rest[0];
        match t.kind {
            TokenKind::Word => unreserved(spelling(self.text, t)),
            TokenKind::Number | TokenKind::Sign | TokenKind::Close => None,
        }
    }

    /// The text of the first token, where it is a word.
    pub fn word(&self) -> Option<&'a str>
        ensures { MatchOption result (kind_of (form self.now) ≢ token_kind.Word) (λ w. form self.now ≡ word w.now) }
    {
        let t = self.rest[0];
        match t.kind {
            TokenKind::Word => Some(word_text(spelling(self.text, t))),
            TokenKind::Number | TokenKind::Sign | TokenKind::Close => None,
        }
    }

    /// The value of the first token, a number.
    pub fn number(&self) -> i64
        requires { IsNumber (form self.now) }
        ensures { result ≡ pos (number_in (form self.now)) }
    {
        number_of(spelling(self.text, self.rest[0]))
    }

    /// The tokens behind the first.
    pub fn behind(&self) -> Cursor<'a>
        requires { form self.now ≢ close }
        ensures { form result ≡ form_behind self.now }
    {
        Cursor {
            text: self.text,
            rest: &self.rest[1..],
        }
    }
}

// The bytes of a token.
fn spelling(text: &[u8], t: Token) -> &[u8]
    requires { LiesWithin (length text.now) t }
    ensures { result.now ≡ slice_range text.now t.from t.to }
{
    &text[t.from as usize..t.to as usize]
}

// A word as a name, where it is one.
fn unreserved(bytes: &[u8]) -> Option<&str>
    requires word { IsTrue (is_word bytes.now) }
    requires short { length bytes.now ≤ longest_name }
    ensures name { MatchOption result (name_in (word bytes.now) ≡ None) (λ n. name_in (word bytes.now) ≡ Some n.now) }
    ensures is_name { IfSome result (λ n. IsTrue (is_name n.now)) }
{
    if is_reserved(bytes) {
        None
    } else {
        Some(word_text(bytes))
    }
}

// A word as text.
fn word_text(word: &[u8]) -> &str
    requires { IsTrue (is_word word.now) }
    ensures { result.now ≡ word.now }
{
    match std::str::from_utf8(word) {
        Ok(text) => text,
        Err(_) => unreachable!(),
    }
}

// The value of decimal digits.
fn number_of(digits: &[u8]) -> i64
    requires digits { IsTrue (list_all is_digit digits.now) }
    requires fits { value_of_digits digits.now ≤ greatest_number }
    ensures { result ≡ pos (value_of_digits digits.now) }
{
    let mut value = 0;
    for d in digits {
        value = 10 * value + u64::from(*d - b'0');
    }
    value as i64
}
