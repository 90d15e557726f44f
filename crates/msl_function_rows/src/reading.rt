// Texts of functions that are read, or refused by this kind at the token behind the `^`: each row is the answer, a colon
// and the text.

use crate::texts::is_answered;
use std::test::Fail;

const ROWS: &[&str] = &[
    "read: fun f(x) = let y = let y = x in y in y;",
    "read: fun f(f) = f;",
    "read: fun f(x) = 007;#",
    "read: fun aaaaaaaaaaaaaaaaaaaaaaaaaaaaaaaaaaaaaaaaaaaaaaaaaaaaaaaaaaaaaaaa(x) = x;",
    "Expected: ^",
    "Expected: ^fu",
    "Expected: fun^",
    "Expected: fun ^12",
    "Expected: fun ^if(x) = 1;",
    "Expected: fun f ^x) = 1;",
    "Expected: fun f(^) = 1;",
    "Expected: fun f(x^;",
    "Expected: fun f(x,^) = 1;",
    "Expected: fun f(x) ^1;",
    "Expected: fun f(x) = ^;",
    "Expected: fun f(x) = x^",
    "Expected: fun f(x) = x ^x;",
    "Expected: fun f(x) = [^];",
    "Expected: fun f(x) = [x,^];",
    "Expected: fun f(x) = [x^;",
    "Expected: fun f(x) = [x]^]",
    "Expected: fun f(x) = (x^;",
    "Expected: fun f(x) = if x ^x;",
    "Expected: fun f(x) = if x then x^;",
    "Expected: fun f(x) = let ^1 = x in x;",
    "Expected: fun f(x) = let y ^x;",
    "Expected: fun f(x) = let y = x^;",
    "Expected: fun f(x) = loop i ^= 3;",
    "Expected: fun f(x) = loop i below x^;",
    "Expected: fun f(x) = loop i below x, ^3",
    "Expected: fun f(x) = min ^x;",
    "Expected: fun f(x) = min(x^);",
    "Expected: fun f(x) = max(x, x^, x);",
    "Expected: fun f(x) = x + ^;",
    "Expected: fun f(x) = x ^not x;",
    "Expected: fun f(x) = -^if x then 1 else 2;",
    "Expected: fun f(x) = 1 + ^let y = x in y;",
    "Expected: fun f(x) = x < x ^< x;",
    "Expected: fun f(x) = x == x ^!= x;",
    "Expected: fun f(x) = x^, x;",
    "Expected: fun f(x) = ^then;",
    "Expected: fun f(x) = x; fun g(x) = f(^);",
    "Expected: fun f(x) = x; fun g(x) = f(x^;",
    "Unknown: fun f(x) = ^y;",
    "Unknown: fun f(x) = ^f(x);",
    "Unknown: fun f(x) = ^f;",
    "Unknown: fun f(x) = ^x();",
    "Unknown: fun f(x) = let y = ^y in y;",
    "Unknown: fun f(x) = (let y = x in y) + ^y;",
    "Unknown: fun f(x) = loop i below ^i, a = 0 in a;",
    "Unknown: fun f(x) = loop i below x, a = ^i in a;",
    "Unknown: fun f(x) = loop i below x, a = ^a in a;",
    "Unknown: fun f(x) = 1; fun g(x) = ^f;",
    "Unknown: fun f(x) = x; fun g(x) = f(x, ^y);",
    "Unknown: fun f(x) = ^g(x); fun g(x) = x;",
    "Twice: fun f(x, ^x) = 1;",
    "Twice: fun f(x) = 1; fun ^f(y) = 1;",
    "Twice: fun f(x) = let ^x = 1 in x;",
    "Twice: fun f(x) = loop ^x below 1, a = 0 in a;",
    "Twice: fun f(x) = loop i below 1, ^i = 0 in i;",
    "Twice: fun f(x) = loop i below 1, ^x = 0 in i;",
    "Twice: fun f(x) = let y = 1 in let ^y = 2 in y;",
    "Width: fun f(x) = [x, x]; fun g(x) = ^f(x);",
    "Width: fun f(x) = [x, x]; fun g(x) = ^f(y);",
    "Width: fun f(x) = x; fun g(x) = ^f(x, x);",
    "Width: fun f(x, y) = x; fun g(x) = 2 * ^f(x) + f(y, y);",
    "Many: fun f(a, b, c, d, e, f, g, h, i, j, k, l, m, n, o, p, ^q) = 1;",
    "Many: fun f(x) = [1, 2, 3, 4, 5, 6, 7, 8, 9, 10, 11, 12, 13, 14, 15, 16, ^y];",
    "Expected: fun f(x) = [1, 2, 3, 4, 5, 6, 7, 8, 9, 10, 11, 12, 13, 14, 15, 16, ^];",
];

#[test]
fn texts_are_read_or_refused(rt: HostRuntime) -> Result<(), Fail> {
    for row in ROWS {
        let (kind, marked) = row.split_once(": ").ok_or("no answer")?;
        is_answered(&rt, rt.alloc(), kind, marked)?;
    }
    Ok(())
}
