// The canonical text of a function, which is read and printed as itself.

use crate::texts::read;
use msl_muscle::{Funs, fun_text};
use std::alloc::Global;
use std::process::Abort;
use std::test::Fail;

// Bodies of a function of x and y, behind `g`, with their canonical texts.
const ROWS: &[(&str, &str)] = &[
    (
        "loop i below x, a = 0 in a + i",
        "loop i below x, a = 0 in a + i",
    ),
    ("loop i below x, a = 0 in i", "loop i below x, a = 0 in i"),
    (
        "x / 0 + 9223372036854775807 * 2",
        "(x / 0) + (9223372036854775807 * 2)",
    ),
    (
        "[x and 2 / y, not x or 2 / y]",
        "[x and (2 / y), (not x) or (2 / y)]",
    ),
    (
        "let m = -x in if m < 0 then g(m + 9) else g(m)",
        "let m = -x in if m < 0 then g(m + 9) else g(m)",
    ),
    ("[y]", "y"),
    ("x - y - 1", "(x - y) - 1"),
    ("x - (y - 1)", "x - (y - 1)"),
    ("--x", "-(-x)"),
    ("x - -y", "x - (-y)"),
    ("7 % -2", "7 % (-2)"),
    ("x <= y or y >= x", "(x <= y) or (y >= x)"),
    ("x < y or y > x", "(x < y) or (y > x)"),
    ("x == y or y != x", "(x == y) or (y != x)"),
    ("min(x % y, max(x, 007))", "min(x % y, max(x, 7))"),
];

// A function of this body, behind `g`.
fn read_body(alloc: Global, body: &str) -> Result<Funs, Fail> {
    let text = format!(in alloc; "fun g(x) = x; fun f(x, y) = {body};")?;
    Ok(read(alloc, text.as_str())?)
}

fn printed(alloc: Global, body: &str) -> Result<Vec<u8>, Fail> {
    let funs = read_body(alloc, body)?;
    let last = funs.as_slice().last().ok_or("no function")?;
    Ok(fun_text(alloc, funs.as_slice(), last)?)
}

fn is_printed(rt: &impl Abort, alloc: Global, body: &str, want: &str) -> Result<(), Fail> {
    let got = printed(alloc, body)?;
    let want = format!(in alloc; "fun f(x, y) = {want};")?;
    assert_eq!(rt; got.as_slice(), want.as_bytes(), "{body}");
    Ok(())
}

#[test]
fn functions_are_printed(rt: HostRuntime) -> Result<(), Fail> {
    for (body, want) in ROWS {
        is_printed(&rt, rt.alloc(), body, want)?;
        is_printed(&rt, rt.alloc(), want, want)?;
    }
    Ok(())
}
