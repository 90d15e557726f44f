// Texts at the ends of each range, which are read.

use crate::answers::{FUNS, ITEMS, is_answered};
use std::test::Fail;

// The ends of each range, and names of different spaces that are equal.
const ACCEPTED: &[&str] = &[
    "data g { a = array 1; b = array 1024; c = array 0001024; give a; }",
    "data g { a = array 1 at 0 len 0; b = array 1 at 1048576 len 1048576; give b; }",
    "data g { m = matrix 1 1 grid 1 1 at 0; give m; }",
    "data g { m = matrix 1048576 1 grid 1024 1 at 1048576; give m; }",
    "data g { m = matrix 1 1048576 grid 1 1024 at 0; give m; }",
    "data g { m = matrix 1024 1024 grid 32 32 at 0; give m; }",
    "data g { m = matrix 3 349525 grid 341 3 at 0; give m; }",
    "data g { m = matrix 2 524288 grid 512 2 at 0; give m; }",
    "data g { a = array 1; b = fold addmod 1 a; c = fold addmod 1000000000000000000 a; give b; }",
    "data g { a = array 1; b = fold mulmod 1 a; c = scan mulmod 1000000000000000000 a; give b; }",
    "data g { a = array 4; b = broadcastPartition 0 a; c = broadcastPartition 3 b; give c; }",
    "data g { a = array 1024; b = broadcastPartition 1023 a; give b; }",
    "data g { a = array 3; b = permute f11 a; c = broadcastPartition 2 b; give c; }",
    "divcon g { parts 2; cutoff 0; simple f11; solve f11; divide f21; combine f21; }",
    "divcon g { parts 16; cutoff 64; simple f11; solve f11; divide f21; combine w16; }",
    "divcon g { parts 15; cutoff 1; simple f11; solve f11; divide f21; combine w15; }",
    "divcon g { parts 2; cutoff 3; simple f21; solve f22; divide f32; combine f42; }",
    "filter g { state 9223372036854775807, -9223372036854775807, -0; count f41; item w5; next n43; flush f31; last f42; } ",
    "filter g { state 0; count f21; item f32; next f21; flush f11; last f22; }",
    "bnb g { bound w15; solved w15; value w15; count w15; branch b15; }",
    "data g { m = matrix 4 6 grid 2 3 at 0; k = matrix 4 6 grid 2 3 at 9; c = zip f21 m k; give c; }",
    "data g { m = matrix 4 6 grid 2 3 at 0; t = matrix 6 4 grid 3 2 at 0; r = transpose t; c = zip f21 m r; give c; }",
    "data g { a = array 3; b = array 3 at 1 len 2; c = zip f21 a b; give c; }",
    "data g { a = array 1; give a; } data h { a = array 2; give a; }",
    "data g { g = array 1; d = map f11 g; f11 = map f11 d; f21 = zip f21 f11 f11; give f21; }",
    "data g { sum = array 1; xor = fold sum sum; gcd = fold xor sum; a = scan gcd sum; give a; }",
    "fun g(g, f11) = g + f11(f11);",
    "fun g(d, fl) = d + fl;",
    "fun g(x) = let y = let y = x in y in y;",
    "fun g(x) = (let y = 1 in y) + (let y = 2 in y) + (loop y below 1, i = 0 in y + i);",
    "fun g(x) = [let y = 1 in y, let y = 2 in y, loop i below x, y = 0 in i + y];",
    "fun g(x) = if let y = 1 in y then let y = 2 in y else let y = 3 in y;",
    "fun g(x) = loop i below let i = x in i, a = let i = 1 in let a = i in a in i + a;",
    "fun sum(x) = x; fun xor(gcd) = sum(gcd); data addmod { mulmod = array 1; give mulmod; }",
    "fun g(x) = let f12 = x in f12;",
];

// Functions of further widths.
const MORE_FUNS: &str = "fun w5(a, b, c, d, e) = [a, b, c];
fun n43(a, b, c, d) = [a, b, c];
fun b15(a, b, c, d, e, f, g, h, i, j, k, l, m, n, o, p) = [a, a, a, a, a, a, a, a, a, a, a, a, a, a, a];
";

const STAGES: &[&str] = &[
    "atomic f32",
    "atomic w16",
    "data d on 1",
    "data d on 64",
    "divcon dv on 1",
    "divcon dv on 64",
    "bnb bn on 01",
    "bnb bn on 00000000000000000000000000000000064",
    "farm 1 { atomic f11 }",
    "farm 64 { atomic f11 }",
    "farm 64 { farm 64 { farm 64 { farm 64 { data d on 64 } } } }",
    "pipe { atomic f11 }",
    "pipe { pipe { pipe { pipe { filter fl } } } }",
    "pipe { farm 2 { atomic f11 }; filter fl; pipe { filter fl } }",
    "pipe { filter fl; filter fl; filter fl; filter fl }",
    "pipe { pipe { farm 1 { pipe { atomic f11 } } }; farm 1 { pipe { farm 1 { atomic f11 } } } }",
];

// Texts that are read between these.
const READ: &[(&str, &[&str], &str)] = &[
    (MORE_FUNS, ACCEPTED, "\nmain = atomic f11;"),
    ("main = ", STAGES, ";"),
];

#[test]
fn ends_of_ranges_are_read(rt: HostRuntime) -> Result<(), Fail> {
    for (before, texts, behind) in READ {
        for text in *texts {
            let heads = [FUNS, ITEMS, before, text];
            is_answered(&rt, rt.alloc(), &heads, "read", behind)?;
        }
    }
    Ok(())
}
