//! Reads texts, and says what each is read as or why it is refused.

use msl_base::ListOf;
use msl_script::{Script, ScriptFault, print_script, read_script};
use std::alloc::{AllocError, Global};
use std::process::Abort;
use std::test::Fail;

/// The beginning of every script.
pub const FIRST: &str = "muesli 1;\n";

/// Functions by their widths: `f32` has three parameters and two results.
pub const FUNS: &str = "muesli 1;
fun f11(a) = a;
fun f21(a, b) = a;
fun f31(a, b, c) = a;
fun f41(a, b, c, d) = a;
fun f12(a) = [a, a];
fun f22(a, b) = [a, b];
fun f32(a, b, c) = [a, b];
fun f42(a, b, c, d) = [a, b];
fun f28(a, b) = [a, a, a, a, a, a, a, a];
fun f29(a, b) = [a, a, a, a, a, a, a, a, a];
fun w15(a, b, c, d, e, f, g, h, i, j, k, l, m, n, o) = a;
fun w16(a, b, c, d, e, f, g, h, i, j, k, l, m, n, o, p) = a;
";

/// One definition of each other kind.
pub const ITEMS: &str = "data d { a = array 3; give a; }
filter fl { state 0, 0; count f31; item f41; next f32; flush f21; last f31; }
divcon dv { parts 2; cutoff 3; simple f21; solve f21; divide f32; combine f21; }
bnb bn { bound f11; solved f11; value f11; count f11; branch f21; }
";

// What a text is read as.
fn read(alloc: Global, text: &[u8]) -> Result<Script, ScriptFault> {
    if text.len() > 1 << 20 {
        return Err(ScriptFault::NoMemory);
    }
    read_script(alloc, text)
}

/// What a text is answered: `read`, or its refusal.
pub fn answer(alloc: Global, text: &[u8]) -> Result<String, AllocError> {
    match read(alloc, text) {
        Ok(_) => String::from_str(alloc, "read"),
        Err(fault) => format!(in alloc; "{fault}"),
    }
}

fn joined(alloc: Global, pieces: &[&str]) -> Result<String, AllocError> {
    let mut text = String::new(alloc);
    for piece in pieces {
        text.push_str(piece)?;
    }
    Ok(text)
}

/// Each row is an answer, a colon and a text that has it behind these heads: `read`, or a kind of refusal at the mark of
/// the text, which is a `^` before a token.
pub fn are_answered(
    rt: &impl Abort,
    alloc: Global,
    heads: &[&str],
    rows: &[&str],
) -> Result<(), Fail> {
    for row in rows {
        let (kind, marked) = row.split_once(": ").ok_or("no answer")?;
        is_answered(rt, alloc, heads, kind, marked)?;
    }
    Ok(())
}

/// A text has this answer behind these heads, at its mark if it is a refusal.
pub fn is_answered(
    rt: &impl Abort,
    alloc: Global,
    heads: &[&str],
    kind: &str,
    marked: &str,
) -> Result<(), Fail> {
    let got = answer_unmarked(alloc, heads, marked)?;
    let want = answer_at_mark(alloc, heads, kind, marked)?;
    assert_eq!(rt; got.as_str(), want.as_str(), "{marked:.200}");
    Ok(())
}

fn answer_unmarked(alloc: Global, heads: &[&str], marked: &str) -> Result<String, AllocError> {
    let (before, behind) = marked.split_once('^').unwrap_or((marked, ""));
    let mut text = joined(alloc, heads)?;
    text.push_str(before)?;
    text.push_str(behind)?;
    answer(alloc, text.as_bytes())
}

fn answer_at_mark(alloc: Global, heads: &[&str], kind: &str, marked: &str) -> Result<String, Fail> {
    if kind == "read" {
        return Ok(String::from_str(alloc, kind)?);
    }
    let (before, _) = marked.split_once('^').ok_or("no mark")?;
    let mut place = before.len();
    for head in heads {
        place = place.saturating_add(head.len());
    }
    Ok(format!(in alloc; "{kind} at {place}")?)
}

/// A text is read as the script of this canonical text, and so is that text. Each is given by its pieces.
pub fn is_read_as(
    rt: &impl Abort,
    alloc: Global,
    text: &[&str],
    want: &[&str],
) -> Result<(), Fail> {
    is_printed_as(rt, alloc, text, want)?;
    is_canonical(rt, alloc, want)
}

fn is_printed_as(rt: &impl Abort, alloc: Global, text: &[&str], want: &[&str]) -> Result<(), Fail> {
    let got = printed(alloc, text)?;
    let want = joined(alloc, want)?;
    assert_eq!(rt; got.as_slice(), want.as_bytes(), "{want}");
    Ok(())
}

fn is_canonical(rt: &impl Abort, alloc: Global, text: &[&str]) -> Result<(), Fail> {
    let got = printed(alloc, text)?;
    let want = joined(alloc, text)?;
    assert_eq!(rt; got.as_slice(), want.as_bytes(), "{want}");
    Ok(())
}

fn printed(alloc: Global, text: &[&str]) -> Result<ListOf<u8>, Fail> {
    let script = read_pieces(alloc, text)?;
    Ok(print_script(alloc, &script)?)
}

/// What a text that is given by its pieces is read as.
pub fn read_pieces(alloc: Global, pieces: &[&str]) -> Result<Script, Fail> {
    let text = joined(alloc, pieces)?;
    Ok(read(alloc, text.as_bytes())?)
}
