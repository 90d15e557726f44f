// Limits: as many as there may be are read, and one more is refused.

use crate::answers::{FIRST, FUNS, ITEMS, are_answered, is_answered};
use std::alloc::{AllocError, Global};
use std::process::Abort;
use std::test::Fail;

// A row is a kind, a number, a colon and a text. Each part in «» stands so often, with its number for `@`, and a mark in
// it counts in the last one alone.
fn kind_count_text<'a>(row: &'a str) -> Result<(&'a str, u32, &'a str), Fail> {
    let (front, text) = row.split_once(": ").ok_or("no kind")?;
    let (kind, count) = front.split_once(' ').ok_or("no number")?;
    Ok((kind, count.parse()?, text))
}

fn repeated(alloc: Global, text: &str, count: u32) -> Result<String, AllocError> {
    let mut whole = String::new(alloc);
    for piece in text.split('«') {
        let (part, behind) = piece.split_once('»').unwrap_or(("", piece));
        for i in 0..count {
            for c in part.chars() {
                match c {
                    '@' => write!(whole, "{i}")?,
                    '^' if i + 1 < count => {}
                    _ => whole.push(c)?,
                }
            }
        }
        whole.push_str(behind)?;
    }
    Ok(whole)
}

// A text with just so many parts has this answer.
fn is_repeated_answered(
    rt: &impl Abort,
    alloc: Global,
    heads: &[&str],
    kind: &str,
    text: &str,
    count: u32,
    tail: &str,
) -> Result<(), Fail> {
    let mut marked = repeated(alloc, text, count)?;
    marked.push_str(tail)?;
    is_answered(rt, alloc, heads, kind, marked.as_str())
}

// So many parts are read, and one more is refused.
fn are_limits(
    rt: &impl Abort,
    alloc: Global,
    heads: &[&str],
    rows: &[&str],
    tail: &str,
) -> Result<(), Fail> {
    for row in rows {
        let (kind, most, text) = kind_count_text(row)?;
        is_repeated_answered(rt, alloc, heads, "read", text, most, tail)?;
        let more = most.saturating_add(1);
        is_repeated_answered(rt, alloc, heads, kind, text, more, tail)?;
    }
    Ok(())
}

// Just so many parts are refused.
fn are_past(rt: &impl Abort, alloc: Global, heads: &[&str], rows: &[&str]) -> Result<(), Fail> {
    for row in rows {
        let (kind, count, text) = kind_count_text(row)?;
        is_repeated_answered(rt, alloc, heads, kind, text, count, ";")?;
    }
    Ok(())
}

// Functions of a filter with eight state numbers.
const WIDE: &str = "fun w8(a, b, c, d, e, f, g, h) = a;
fun w9(a, b, c, d, e, f, g, h, i) = a;
fun w98(a, b, c, d, e, f, g, h, i) = [a, b, c, d, e, f, g, h];
fun w10(a, b, c, d, e, f, g, h, i, j) = a;
";

const DEFINITIONS: &[&str] = &[
    "Many 240: «^fun n@(x) = x; »",
    "Many 64: «^data n@ { a = array 1; give a; } »",
    "Many 64: «^filter n@ { state 0; count f21; item f31; next f21; flush f11; last f21; } »",
    "Many 64: «^divcon n@ { parts 2; cutoff 0; simple f11; solve f11; divide f21; combine f21; } »",
    "Many 64: «^bnb n@ { bound f11; solved f11; value f11; count f11; branch f21; } »",
    "Many 64: data g { «^n@ = array 1; »give n0; }",
    "Many 7: filter g { state 0«, ^0»; count w9; item w10; next w98; flush w8; last w9; }",
    "Many 7: filter g { state 0«, ^-1»; count w9; item w10; next w98; flush w8; last w9; }",
    "LongName 64: fun ^«a»(x) = x;",
    "LongName 64: fun g(^«a») = 1;",
    "LongName 63: fun g(^_«9») = 1;",
];

const FUNCTIONS: &[&str] = &[
    "Many 15: fun g(p«, ^p@») = p",
    "Many 15: fun g(x) = [x«, ^x»]",
    "Many 15: fun g(x) = [x«, ^-f11(1)»]",
    "Many 31: fun g(x) = «let ^v@ = 1 in »x",
    "Many 28: fun g(p, q, r, s) = «let ^v@ = 1 in »p",
    "Many 29: fun g(x) = «let v@ = 1 in »loop i below 1, ^a = 0 in a",
    "Many 15: fun g(x) = «loop i@ below 1, ^a@ = 0 in »let b = x in b",
    // A tree of depth 100.
    "Deep 99: fun ^g(x) = 1« + 1»",
    "Deep 99: fun ^g(x) = 1« / x»",
    "Deep 99: fun ^g(x) = 1« and 1»",
    "Deep 99: fun ^g(x) = 1« or 1»",
    "Deep 99: fun ^g(x) = «-»x",
    "Deep 99: fun ^g(x) = «not »1",
    "Deep 99: fun ^g(x) = [1, «-»x, 2]",
    "Deep 99: fun ^g(x) = «f11(»x«)»",
    "Deep 99: fun ^g(x) = «f21(1, »x«)»",
    "Deep 99: fun ^g(x) = «min(»x«, 1)»",
    "Deep 99: fun ^g(x) = «max(1, »x«)»",
    "Deep 99: fun ^g(x) = «if »x« then 1 else 2»",
    "Deep 99: fun ^g(x) = «if x then »1« else 2»",
    "Deep 99: fun ^g(x) = «if x then 1 else »2",
    "Deep 99: fun ^g(x) = «let y = »1« in y»",
    "Deep 99: fun ^g(x) = «loop i below »x«, a = 0 in a»",
    "Deep 99: fun ^g(x) = «loop i below 1, a = »x« in a»",
    "Deep 99: fun ^g(x) = «(»x« + 1)»",
    // One script of many deep functions.
    "Deep 99: fun ^b(x) = «-»x;\nfun c(x) = «(»x« + 1)»;\nfun e(x) = «f21(x, »x«)»;\nfun f(x) = «if x then 1 else »x;\nfun h(x) = «let y = »x« in y»",
    // Texts that open 256 at once, or one or two fewer.
    "Deep 127: fun g(x) = «(»^x«)»",
    "Deep 126: fun g(x) = «(»-^x«)»",
    "Deep 126: fun g(x) = «(»-^-x«)»",
    "Deep 126: fun g(x) = «(»not ^not x«)»",
    "Deep 126: fun g(x) = «(»if ^x then 1 else 2«)»",
    "Deep 126: fun g(x) = «(»let y = ^x in y«)»",
    "Deep 126: fun g(x) = «(»loop i below ^1, a = 0 in a«)»",
    "Deep 126: fun g(x) = «(»f11(^x)«)»",
    "Deep 126: fun g(x) = «(»min(^x, x)«)»",
];

const STAGES: &[&str] = &[
    "Many 63: pipe { atomic f11«; ^atomic f32» }",
    "Many 63: pipe { filter fl«; ^data d on 1» }",
    "Many 63: pipe { atomic f11«; ^divcon dv on 64» }",
    "Many 63: pipe { atomic f11«; ^bnb bn on 1» }",
    "Many 63: pipe { pipe { atomic f11 }«; farm 64 { ^atomic f11 }» }",
    "Many 63: pipe { farm 1 { pipe { atomic f11«; ^atomic f11» } } }",
    "Many 62: pipe { atomic f11«; atomic f11»; ^filter fl }",
    "Many 4: pipe { atomic f11«; ^filter fl» }",
    "Many 3: pipe { filter fl«; pipe { ^filter fl }» }",
    "Deep 4: «^farm 1 { »atomic f11« }»",
    "Deep 4: «^pipe { »filter fl« }»",
    "Deep 2: «^pipe { farm 1 { »data d on 1« } }»",
    "Deep 2: «^farm 1 { pipe { »divcon dv on 1« } }»",
    "Deep 3: «pipe { ^farm 1 { atomic f11 }; »bnb bn on 1« }»",
];

#[test]
fn limits_are_kept(rt: HostRuntime) -> Result<(), Fail> {
    let alloc = rt.alloc();
    let tail = "\nmain = atomic f11;";
    are_limits(&rt, alloc, &[FUNS, WIDE], DEFINITIONS, tail)?;
    are_limits(&rt, alloc, &[FUNS], FUNCTIONS, ";\nmain = atomic f11;")?;
    are_limits(&rt, alloc, &[FUNS, ITEMS, "main = "], STAGES, ";")
}

// Functions and definitions that are refused behind so many parts.
const PAST: &[&str] = &[
    "Expected 15: fun g(p«, p@», ^1",
    "Expected 15: fun g(p«, p@», ^)",
    "Expected 15: fun g(p«, p@», ^if",
    "Many 15: fun g(p«, p@», ^p",
    "Expected 15: fun g(x) = [x«, x», ^]",
    "Expected 15: fun g(x) = [x«, x», ^then",
    "Many 15: fun g(x) = [x«, x», ^q",
    "Many 15: fun g(x) = [x«, x», ^f12(x)",
    "Many 15: fun g(x) = [x«, x», ^- ]",
    "Many 15: fun g(x) = [x«, x», ^if ]",
    "Many 15: fun g(x) = [x«, x», ^(]",
    "Many 31: fun g(x) = «let v@ = 1 in »let ^x = 1",
    "Expected 31: fun g(x) = «let v@ = 1 in »let ^1",
    "Many 31: fun g(x) = «let v@ = 1 in »loop ^i below",
    "Many 31: fun g(x) = «let v@ = 1 in »loop ^v0 below",
    "Many 30: fun g(x) = «let v@ = 1 in »loop i below 1, ^i",
    "Expected 30: fun g(x) = «let v@ = 1 in »loop i below 1, ^in",
    "Twice 30: fun g(x) = «let v@ = 1 in »loop ^v0 below",
    "Expected 128: fun g(x) = «(»^;",
    "Expected 128: fun g(x) = «(»^)",
    "Expected 128: fun g(x) = «(»^then",
    "Deep 128: fun g(x) = «(»^(",
    "Deep 128: fun g(x) = «(»^if",
    "Deep 128: fun g(x) = «(»^min(",
    "Deep 128: fun g(x) = «(»^q",
    "Deep 128: fun g(x) = «(»^q(1)",
    "Deep 128: fun g(x) = «(»^f12(1)",
    "Deep 255: fun g(x) = «-»^x",
    "Deep 255: fun g(x) = «not »^1",
    "Expected 255: fun g(x) = «-»^",
    "Deep 255: fun g(x) = «-»^-",
    "Deep 255: fun g(x) = «if »^x",
    "Deep 256: fun g(x) = «if »^if",
    "Deep 256: fun g(x) = «if »^let",
    // Texts that open 256 at once and no more, of trees that are too deep.
    "Deep 254: fun ^g(x) = «-»x",
    "Deep 254: fun ^g(x) = «if »x« then 1 else 2»",
    "Deep 127: fun ^g(x) = «f11(»x«)»",
    "Unknown 100: fun g(x) = 1« + 1» + ^q",
    "Expected 100: fun g(x) = 1« + 1» ^main",
    "Deep 100: fun ^g(x) = [1, «-»x]",
    "Many 244: «fun n@(x) = x; »^fun",
    "Many 244: «fun n@(x) = x; »^fun n0(x)",
    "Twice 244: «fun n@(x) = x; »data ^n0",
    "Many 64: «data n@ { a = array 1; give a; } »^data",
    "Twice 64: «data n@ { a = array 1; give a; } »fun ^n63(x)",
    "Twice 64: «data n@ { a = array 1; give a; } »filter ^n0",
    "Many 64: data g { «n@ = array 1; »^n0 = array 1",
    "Expected 64: data g { «n@ = array 1; »^",
    "Expected 64: data g { «n@ = array 1; »^array",
    "Unknown 64: data g { «n@ = array 1; »give ^q",
    "Expected 7: filter g { state 0«, 0», ^",
    "Expected 7: filter g { state 0«, 0», ^x",
    "Many 7: filter g { state 0«, 0», ^-",
    "Many 7: filter g { state 0«, 0», ^-x",
    "Expected 6: filter g { state 0«, 0», -^x",
    "LongName 65: fun ^«a» $",
    "LongName 65: ^«a» 9223372036854775808",
    "Byte 65: fun ^$ «a»",
    "Number 65: fun ^«1» «a»",
    "Expected 65: fun # «a»«1»\n^1",
];

const PAST_STAGES: &[&str] = &[
    "Expected 63: pipe { atomic f11«; atomic f11»; ^}",
    "Expected 63: pipe { atomic f11«; atomic f11»; ^f11",
    "Expected 63: pipe { atomic f11«; atomic f11»; pipe { ^}",
    "Range 63: pipe { atomic f11«; atomic f11»; farm ^0",
    "Many 63: pipe { atomic f11«; atomic f11»; ^atomic",
    "Many 63: pipe { atomic f11«; atomic f11»; ^atomic q",
    "Many 63: pipe { atomic f11«; atomic f11»; ^filter q",
    "Many 63: pipe { atomic f11«; atomic f11»; ^data",
    "Many 63: pipe { atomic f11«; atomic f11»; farm 1 { ^bnb",
    "InFarm 63: pipe { atomic f11«; atomic f11»; farm 1 { ^filter",
    "Many 3: pipe { filter fl«; filter fl»; ^filter q",
    "Unknown 3: pipe { filter fl«; filter fl»; atomic ^q",
    "InFarm 3: pipe { filter fl«; filter fl»; farm 1 { ^filter",
    "Deep 4: «farm 1 { »^farm",
    "Deep 4: «farm 1 { »^pipe",
    "Deep 4: «pipe { »^farm 0",
    "InFarm 4: «farm 1 { »^filter fl",
    "Expected 4: «pipe { »^}",
    "Unknown 4: «pipe { »atomic ^q",
];

// Which test comes first where a limit is passed.
#[test]
fn limits_have_an_order(rt: HostRuntime) -> Result<(), Fail> {
    are_past(&rt, rt.alloc(), &[FUNS], PAST)?;
    are_past(&rt, rt.alloc(), &[FUNS, ITEMS, "main = "], PAST_STAGES)
}

// Functions of rank 8, one of them with two results.
const RANKS: &str = "fun ra(x) = x;
fun rb(x) = ra(x);
fun rc(x) = rb(x);
fun rd(x) = rc(x);
fun re(x) = rd(x);
fun rf(x) = re(x);
fun rg(x) = rf(x);
fun rh(x) = rg(x);
fun ri(x) = [x, ra(x) + rg(ra(x))];
";

const OF_RANK_8: &[&str] = &[
    "Deep: fun rj(x) = ^rh(x);",
    "Deep: fun rj(x) = ^rh(q);",
    "Deep: fun rj(x) = ^rh();",
    "Deep: fun rj(x) = ^ri(x);",
    "Deep: fun rj(x) = ra(^rh(x));",
    "Deep: fun rj(x) = [x, ^rh(x)];",
    "Unknown: fun rj(x) = ^rh;",
    "Unknown: fun rj(x) = rg(^q);",
    "Width: fun rj(x) = ^rg(x, x);",
    "read: fun rj(x) = rg(rg(x)); main = atomic rj;",
    "read: data d { a = array 1; b = map rh a; give b; } main = atomic ri;",
];

#[test]
fn ranks_are_limited(rt: HostRuntime) -> Result<(), Fail> {
    are_answered(&rt, rt.alloc(), &[FIRST, RANKS], OF_RANK_8)
}
