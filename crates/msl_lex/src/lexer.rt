ghost use Rattle.std.specs.Prelude.{◌≡◌, ◌≤◌, ◌<◌, ◌^◌, length, slice_index, IfOk, IfErr};
ghost use Rattle.std.specs.List.{prefix_len};
ghost use Rattle.msl_base.specs.declared.limits.TheConstants.{MOST_SCRIPT_BYTES};
ghost use Rattle.msl_lex.specs.Bytes.{is_blank, is_letter, is_digit, is_word_byte, is_comment_byte, is_short_sign, starts_long_sign};
ghost use Rattle.msl_lex.specs.Computing.{front_at, word_at, number_at, sign_at};
ghost use Rattle.msl_lex.specs.Layout.{AreTokensOf, IsRefusalOf};
ghost use Rattle.msl_lex.specs.Pieces.{front_in, front_of, IsWithin};

use crate::{LexFault, Token, TokenKind, Tokens};
use msl_base::limits::{GREATEST_NUMBER, LONGEST_NAME};
use std::alloc::Global;

/// The tokens of a text of at most 1,048,576 bytes, in order; the last is `Close`, at the text's
/// length. Spaces, tabs, CR, LF and comments, from `#` to the next LF or the end, separate them.
///
/// # Errors
///
/// The first fault, with its place: `Byte` at a byte that begins no token, `LongName` at a word of
/// more than 64 bytes, `Number` at a number above 9223372036854775807; `NoMemory` at any text.
pub fn lex(alloc: Global, text: &[u8]) -> Result<Tokens, LexFault>
    requires { length text.now ≤ MOST_SCRIPT_BYTES }
    ensures tokens { IfOk result (AreTokensOf text.now) }
    ensures refusal { IfErr result (IsRefusalOf text.now) }
{
    let mut tokens = Tokens::new(alloc);
    let mut at = 0;
    while at < text.len() {
        match first_piece(&text[at..], at as u32)? {
            Piece::Gap(len) => at += len,
            Piece::Token(kind, len) => {
                tokens.add(token(kind, at, at + len))?;
                at += len;
            }
        }
    }
    tokens.add(token(TokenKind::Close, at, at))?;
    Ok(tokens)
}

fn token(kind: TokenKind, from: usize, to: usize) -> Token
    requires from { from ≤ MOST_SCRIPT_BYTES }
    requires to { to ≤ MOST_SCRIPT_BYTES }
    ensures { result ≡ record { kind = kind; from = from; to = to } }
{
    Token {
        kind,
        from: from as u32,
        to: to as u32,
    }
}

// What stands at the front of a text, with its length: bytes that separate, or a token.
enum Piece {
    Gap(usize),
    Token(TokenKind, usize),
}

// The first piece of a text, which stands at this place.
fn first_piece(text: &[u8], at: u32) -> Result<Piece, LexFault>
    requires { 0 < length text.now }
    ensures piece { front_in result ≡ front_at at text.now }
    ensures within { IfOk result (λ p. IsWithin text.now (front_of p)) }
{
    let first = text[0];
    if is_blank(first) {
        Ok(Piece::Gap(1))
    } else if first == b'#' {
        Ok(Piece::Gap(comment_len(text)))
    } else if is_letter(first) {
        word(text, at)
    } else if is_digit(first) {
        number(text, at)
    } else {
        sign(text, at)
    }
}

fn comment_len(text: &[u8]) -> usize
    ensures { result ≡ prefix_len is_comment_byte text.now }
{
    text.iter().take_while(|b| **b != b'\n').count()
}

fn word_len(text: &[u8]) -> usize
    ensures { result ≡ prefix_len is_word_byte text.now }
{
    text.iter().take_while(|b| is_word_byte(**b)).count()
}

fn word(text: &[u8], at: u32) -> Result<Piece, LexFault>
    ensures { front_in result ≡ word_at at (prefix_len is_word_byte text.now) }
{
    let len = word_len(text);
    if len > LONGEST_NAME {
        return Err(LexFault::LongName(at));
    }
    Ok(Piece::Token(TokenKind::Word, len))
}

fn number(text: &[u8], at: u32) -> Result<Piece, LexFault>
    ensures { front_in result ≡ number_at at (prefix_len is_digit text.now) text.now }
{
    let mut value = 0;
    for (len, &byte) in text.iter().enumerate() {
        if !is_digit(byte) {
            return Ok(Piece::Token(TokenKind::Number, len));
        }
        value = 10 * value + u128::from(byte - b'0');
        if value > u128::from(GREATEST_NUMBER) {
            return Err(LexFault::Number(at));
        }
    }
    Ok(Piece::Token(TokenKind::Number, text.len()))
}

fn sign(text: &[u8], at: u32) -> Result<Piece, LexFault>
    requires { 0 < length text.now }
    ensures { front_in result ≡ sign_at at (slice_index text.now 0) text.now }
{
    if starts_long_sign(text) {
        Ok(Piece::Token(TokenKind::Sign, 2))
    } else if is_short_sign(text[0]) {
        Ok(Piece::Token(TokenKind::Sign, 1))
    } else {
        Err(LexFault::Byte(at))
    }
}

fn is_blank(byte: u8) -> bool
    ensures { result ≡ is_blank byte }
{
    matches!(byte, b' ' | b'\t' | b'\r' | b'\n')
}

fn is_letter(byte: u8) -> bool
    ensures { result ≡ is_letter byte }
{
    matches!(byte, b'A'..=b'Z' | b'a'..=b'z' | b'_')
}

fn is_digit(byte: u8) -> bool
    ensures { result ≡ is_digit byte }
{
    matches!(byte, b'0'..=b'9')
}

fn is_word_byte(byte: u8) -> bool
    ensures { result ≡ is_word_byte byte }
{
    is_letter(byte) || is_digit(byte)
}

fn starts_long_sign(text: &[u8]) -> bool
    ensures { result ≡ starts_long_sign text.now }
{
    matches!(text, [b'=' | b'!' | b'<' | b'>', b'=', ..])
}

// The ranges are the signs ( ) * + , - and ; < = >.
fn is_short_sign(byte: u8) -> bool
    ensures { result ≡ is_short_sign byte }
{
    matches!(byte, b'%' | b'('..=b'-' | b'/' | b';'..=b'>' | b'[' | b']' | b'{' | b'}')
}
