// The definition of a kind that a name names.

ghost use Rattle.std.specs.Prelude.{◌≡◌, ◌<◌, ◌≤◌, length, map, IfOk};
ghost use Rattle.msl_base.specs.declared.limits.TheConstants.{MOST_DEFINITIONS};
ghost use Rattle.msl_grammar.specs.Following.{IsRead};
ghost use Rattle.msl_grammar.specs.Known.{AreAmong};
ghost use Rattle.msl_grammar.specs.ScriptGrammar.{a_definition};

use msl_base::{Named, position_named};
use msl_grammar::Known;
use msl_read::{Cursor, ReadFault};

// The place among these definitions of the one that the first token names.
pub fn definition<T: Named>(
    known: &Known,
    c: &mut Cursor<'_>,
    items: &[T],
) -> Result<u32, ReadFault>
    requires few { length items.now ≤ MOST_DEFINITIONS }
    requires among { AreAmong (map T.called items.now) known.now.others }
    ensures read { IsRead c.old (a_definition known.now (map T.called items.now)) c.new result }
    ensures within { IfOk result (λ k. k < length items.now) }
    ensures shorter { length c.new ≤ length c.old }
{
    let Some(name) = c.name() else {
        return Err(c.unexpected());
    };
    let Some(place) = position_named(items, name) else {
        return Err(c.refusal(known.unknown(name)));
    };
    c.advance();
    Ok(place as u32)
}
