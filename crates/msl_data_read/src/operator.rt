// Operators.

ghost use Rattle.std.specs.Prelude.{◌≡◌, ◌≤◌, length, IfOk};
ghost use Rattle.msl_grammar.specs.Following.{IsRead};
ghost use Rattle.msl_ops.specs.Operators.{has_modulus};
ghost use Rattle.msl_grammar.specs.ScriptGrammar.{a_number, an_operator, with_modulus};

use msl_base::limits::GREATEST_MODULUS;
use msl_lex::{Kind, TokenKind};
use msl_ops::{Op, OpKind, op_table};
use msl_read::{Cursor, ReadFault};

// An operator, which any word may name, with its modulus where it needs one.
pub fn operator(c: &mut Cursor<'_>) -> Result<Op, ReadFault>
    ensures read { IsRead c.old an_operator c.new result }
    ensures shorter { length c.new ≤ length c.old }
{
    let Some(word) = c.word() else {
        return Err(c.unexpected());
    };
    let Some(kind) = op_table().find(word) else {
        return Err(c.refusal(Kind::Unknown));
    };
    c.advance();
    operator_of(c, kind)
}

// The operator of a kind, with its modulus.
fn operator_of(c: &mut Cursor<'_>, kind: OpKind) -> Result<Op, ReadFault>
    ensures read { IsRead c.old (with_modulus (has_modulus kind) kind) c.new result }
    ensures shorter { length c.new ≤ length c.old }
{
    if kind.has_modulus() {
        let modulus = modulus(c)? as i64;
        Ok(Op { kind, modulus })
    } else {
        Ok(Op { kind, modulus: 1 })
    }
}

fn modulus(c: &mut Cursor<'_>) -> Result<u64, ReadFault>
    ensures read { IsRead c.old (a_number 1 1000000000000000000) c.new result }
    ensures within { IfOk result (λ v. (1 ≤ v) × (v ≤ 1000000000000000000)) }
    ensures shorter { length c.new ≤ length c.old }
{
    let TokenKind::Number = c.kind() else {
        return Err(c.unexpected());
    };
    let v = c.number();
    if v < 1 || v > GREATEST_MODULUS {
        return Err(c.refusal(Kind::Range));
    }
    c.advance();
    Ok(v as u64)
}
