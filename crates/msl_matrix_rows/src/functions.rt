//! Functions, by their names.

ghost use Rattle.msl_local.specs.Places.{Takes};

use msl_base::Small;
use msl_lex::lex;
use msl_muscle::{Funs, ParseFault, Use, parse_fun};
use std::alloc::Global;
use std::process::Abort;

const TEXTS: &[&str] = &[
    "fun twice(x) = x + x;",
    "fun minus(x, y) = x - y;",
    "fun sum(x, y) = x + y;",
    "fun sum3(r, c, x) = r + c + x;",
    "fun sum4(r, c, x, y) = r + c + x + y;",
    "fun place(r, c, x) = 5 * r - 3 * c + x;",
    "fun places(r, c, x, y) = 5 * r - 3 * c + x - y;",
    // 1 and 2 fault, and differ in how.
    "fun fault1(x) = if x == 1 then x / 0 else if x == 2 then x + 9223372036854775807 else x;",
    "fun fault2(y, x) = if x == 1 then y / 0 else if x == 2 then x + 9223372036854775807 else y;",
    "fun fault3(r, c, x) = if x == 1 then r / 0 else if x == 2 then x + 9223372036854775807 else c;",
    "fun fault4(r, c, y, x) = if x == 1 then r / 0 else if x == 2 then x + 9223372036854775807 else c;",
    // How many places the blocks move in block row or column s, with a number that is given before.
    "fun all(k, s) = k;",
    "fun plus(k, s) = k + s;",
    "fun less(k, s) = k - s;",
    // k and what is behind it fault, and differ in how.
    "fun divides(k, s) = if s == k then s / 0 else if s == k + 1 then s + 9223372036854775807 else s;",
    "fun exceeds(k, s) = if s == k then s + 9223372036854775807 else if s == k + 1 then s / 0 else s;",
];

/// All functions.
pub fn functions(rt: &impl Abort, alloc: Global) -> Result<Funs, ParseFault> {
    let mut funs = Funs::new(alloc);
    for text in TEXTS {
        add(rt, alloc, text.as_bytes(), &mut funs)?;
    }
    Ok(funs)
}

fn add(rt: &impl Abort, alloc: Global, text: &[u8], funs: &mut Funs) -> Result<(), ParseFault> {
    assert!(rt; text.len() <= 1 << 20);
    let Ok(tokens) = lex(alloc, text) else {
        return Err(ParseFault::NoMemory);
    };
    assert!(rt; !tokens.as_slice().is_empty());
    let (fun, _) = parse_fun(alloc, text, &tokens, 0, funs)?;
    funs.add(fun)?;
    Ok(())
}

/// The function of a name, which takes so many numbers and gives one.
pub fn function<'a>(rt: &impl Abort, funs: &'a Funs, name: &str, takes: usize) -> Use<'a>
    ensures { Takes result takes }
{
    let at = funs.find(name).expect(rt, "a function of the name");
    assert!(rt; (at as usize) < funs.as_slice().len());
    let f = funs.muscle(at);
    assert!(rt; f.widths() == (takes, 1));
    let extra = Small::of(&[]);
    Use { f, extra }
}

/// The function of a name, which is given k and takes one number behind it.
pub fn given<'a>(rt: &impl Abort, funs: &'a Funs, name: &str, k: i64) -> Use<'a>
    ensures { Takes result 1 }
{
    let at = funs.find(name).expect(rt, "a function of the name");
    assert!(rt; (at as usize) < funs.as_slice().len());
    let f = funs.muscle(at);
    assert!(rt; f.widths() == (2, 1));
    let extra = Small::of(&[k]);
    Use { f, extra }
}
