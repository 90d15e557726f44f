// Limits: as many as there may be are read, and one more is refused. Each part in «» stands so often, with its number
// for `@`, and a mark in it counts in the last one alone.

use crate::texts::is_answered;
use std::alloc::{AllocError, Global};
use std::test::Fail;

const ROWS: &[(&str, u32, &str)] = &[
    ("read", 256, "«fun f@(x) = x; »"),
    ("Many", 257, "«^fun f@(x) = x; »"),
    ("read", 15, "fun f(p«, p@») = p;"),
    ("Many", 16, "fun f(p«, ^p@») = p;"),
    ("read", 15, "fun f(x) = [x«, @»];"),
    ("Many", 16, "fun f(x) = [x«, ^@»];"),
    ("read", 31, "fun f(x) = «let v@ = 1 in »x;"),
    ("Many", 32, "fun f(x) = «let ^v@ = 1 in »x;"),
    (
        "read",
        29,
        "fun f(x) = «let v@ = 1 in »loop i below 1, a = 0 in a;",
    ),
    (
        "Many",
        30,
        "fun f(x) = «let v@ = 1 in »loop i below 1, ^a = 0 in a;",
    ),
    // Texts that open 256 at once, and one more.
    ("read", 127, "fun f(x) = «(»x«)»;"),
    ("Deep", 128, "fun f(x) = «(»^x«)»;"),
    ("Deep", 255, "fun f(x) = «-»^x;"),
    // Trees of depth 100, and one more.
    ("read", 99, "fun f(x) = «-»x;"),
    ("Deep", 100, "fun ^f(x) = «-»x;"),
    ("Deep", 254, "fun ^f(x) = «-»x;"),
    ("read", 99, "fun f(x) = 1« + 1»;"),
    ("Deep", 100, "fun ^f(x) = 1« + 1»;"),
    ("Deep", 100, "fun ^f(x) = [x, «-»x];"),
    // Other tests come first.
    ("Expected", 128, "fun f(x) = «(»^;"),
    ("Unknown", 100, "fun f(x) = «1 + »^y;"),
    // Functions of rank 8, and one more.
    (
        "read",
        1,
        "fun fa(x) = x; fun fb(x) = fa(x); fun fc(x) = fb(x); fun fd(x) = fc(x); fun fe(x) = fd(x); fun ff(x) = fe(x); fun fg(x) = ff(x); fun fh(x) = fg(x); ",
    ),
    (
        "Deep",
        1,
        "fun fa(x) = x; fun fb(x) = fa(x); fun fc(x) = fb(x); fun fd(x) = fc(x); fun fe(x) = fd(x); fun ff(x) = fe(x); fun fg(x) = ff(x); fun fh(x) = fg(x); fun g(x) = ^fh(x);",
    ),
];

fn repeated(alloc: Global, text: &str, count: u32) -> Result<String, AllocError> {
    let mut whole = String::new(alloc);
    for piece in text.split('«') {
        let (part, behind) = piece.split_once('»').unwrap_or(("", piece));
        for i in 0..count {
            for c in part.chars() {
                match c {
                    '@' => write!(whole, "{i}")?,
                    '^' if i + 1 < count => {}
                    _ => whole.push(c)?,
                }
            }
        }
        whole.push_str(behind)?;
    }
    Ok(whole)
}

#[test]
fn limits_are_kept(rt: HostRuntime) -> Result<(), Fail> {
    for (kind, count, text) in ROWS {
        let marked = repeated(rt.alloc(), text, *count)?;
        is_answered(&rt, rt.alloc(), kind, marked.as_str())?;
    }
    Ok(())
}
