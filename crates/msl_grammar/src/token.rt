// Quoted tokens and numbers.

ghost use Rattle.std.specs.Prelude.{◌≤◌, ◌≤ℤ◌, length, pos, IfOk};
ghost use Rattle.msl_base.specs.declared.limits.TheConstants.{GREATEST_NUMBER};
ghost use Rattle.msl_grammar.specs.Following.{IsRead, IsTaken};
ghost use Rattle.msl_grammar.specs.ScriptGrammar.{token, a_number, a_natural, an_integer};
ghost use Rattle.msl_grammar.specs.ScriptGrammar as grammar;

use msl_lex::{Kind, TokenKind};
use msl_read::{Cursor, ReadFault};

/// The first token, which has to be this quoted text.
pub fn quoted(c: &mut Cursor<'_>, text: &str) -> Result<(), ReadFault>
    ensures read { IsTaken c.old (token text.now) c.new result }
    ensures shorter { length c.new ≤ length c.old }
{
    if c.take(text) {
        Ok(())
    } else {
        Err(c.unexpected())
    }
}

/// A number from one to another, both included.
pub fn number(c: &mut Cursor<'_>, low: u32, high: u32) -> Result<u32, ReadFault>
    ensures read { IsRead c.old (a_number low high) c.new result }
    ensures within { IfOk result (λ v. (low ≤ v) × (v ≤ high)) }
    ensures shorter { length c.new ≤ length c.old }
{
    let TokenKind::Number = c.kind() else {
        return Err(c.unexpected());
    };
    let v = c.number();
    if v < i64::from(low) || v > i64::from(high) {
        return Err(c.refusal(Kind::Range));
    }
    c.advance();
    Ok(v as u32)
}

/// Any number.
pub fn natural(c: &mut Cursor<'_>) -> Result<i64, ReadFault>
    ensures read { IsRead c.old (λ k. a_natural (λ v. k (pos v))) c.new result }
    ensures within { IfOk result (λ v. (pos 0 ≤ℤ v) × (v ≤ℤ pos GREATEST_NUMBER)) }
    ensures shorter { length c.new ≤ length c.old }
{
    let TokenKind::Number = c.kind() else {
        return Err(c.unexpected());
    };
    let v = c.number();
    c.advance();
    Ok(v)
}

/// An integer.
pub fn integer(c: &mut Cursor<'_>) -> Result<i64, ReadFault>
    ensures read { IsRead c.old an_integer c.new result }
    ensures shorter { length c.new ≤ length c.old }
{
    if c.take("-") {
        Ok(0 - natural(c)?)
    } else {
        Ok(natural(c)?)
    }
}

/// A word, such a number and `;`.
pub fn numbered(c: &mut Cursor<'_>, word: &str, low: u32, high: u32) -> Result<u32, ReadFault>
    ensures read { IsRead c.old (grammar.numbered word.now low high) c.new result }
    ensures within { IfOk result (λ v. (low ≤ v) × (v ≤ high)) }
    ensures shorter { length c.new ≤ length c.old }
{
    quoted(c, word)?;
    let v = number(c, low, high)?;
    quoted(c, ";")?;
    Ok(v)
}
