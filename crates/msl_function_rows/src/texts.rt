//! Reads texts of functions, and says why they are refused.

ghost use Rattle.std.specs.Prelude.{◌<◌, length, IfOk};
ghost use Rattle.msl_lex.specs.Layout.{AreTokensOf};

use msl_lex::{Tokens, lex};
use msl_muscle::{Funs, ParseFault, parse_fun};
use std::alloc::{AllocError, Global};
use std::process::Abort;
use std::test::Fail;

/// All functions of a text, whose tokens can be spelt.
pub fn read(alloc: Global, text: &str) -> Result<Funs, ParseFault> {
    let text = text.as_bytes();
    if text.len() > 1 << 20 {
        return Err(ParseFault::NoMemory);
    }
    match lex(alloc, text) {
        Ok(tokens) => read_tokens(alloc, text, &tokens),
        Err(_) => Err(ParseFault::NoMemory),
    }
}

fn read_tokens(alloc: Global, text: &[u8], tokens: &Tokens) -> Result<Funs, ParseFault>
    requires { AreTokensOf text.now tokens.now }
{
    let mut funs = Funs::new(alloc);
    let count = tokens.as_slice().len();
    let mut at = 0;
    for _ in 0..count {
        if at >= count {
            break;
        }
        let next = add(alloc, text, tokens, at, &mut funs)?;
        // Behind the last function stands the end.
        at = if next + 1 == count { count } else { next };
    }
    Ok(funs)
}

// Appends the function at a token, and gives the place behind it.
fn add(
    alloc: Global,
    text: &[u8],
    tokens: &Tokens,
    from: usize,
    funs: &mut Funs,
) -> Result<usize, ParseFault>
    requires tokens { AreTokensOf text.now tokens.now }
    requires from { from < length tokens.now }
    ensures { IfOk result (λ next. next < length tokens.now) }
{
    let (fun, next) = parse_fun(alloc, text, tokens, from, funs)?;
    funs.add(fun)?;
    Ok(next)
}

/// A text has this answer: `read`, or a refusal at its mark, which is a `^` before a token.
pub fn is_answered(rt: &impl Abort, alloc: Global, kind: &str, marked: &str) -> Result<(), Fail> {
    let got = answer(alloc, marked)?;
    let want = answer_at_mark(alloc, kind, marked)?;
    assert_eq!(rt; got.as_str(), want.as_str(), "{marked:.200}");
    Ok(())
}

// Whether a text without its mark is read, or why not.
fn answer(alloc: Global, marked: &str) -> Result<String, AllocError> {
    let (before, behind) = marked.split_once('^').unwrap_or((marked, ""));
    let text = format!(in alloc; "{before}{behind}")?;
    match read(alloc, text.as_str()) {
        Ok(_) => String::from_str(alloc, "read"),
        Err(fault) => format!(in alloc; "{fault}"),
    }
}

fn answer_at_mark(alloc: Global, kind: &str, marked: &str) -> Result<String, AllocError> {
    match marked.split_once('^') {
        Some((before, _)) => format!(in alloc; "{kind} at {}", before.len()),
        None => String::from_str(alloc, kind),
    }
}
