//! A main stage, and what comes of it by each command.

use msl_fixture::{Case, ROUNDS, SEQ, WORKING, meet, not_run, run};
use std::alloc::Global;
use std::test::Fail;
use std::thread::Threads;

/// Functions, most of which divide, so that few records fault.
pub const FUNCTIONS: &str =
    "fun sq(x) = x * x;\nfun a(x) = 10 / x;\nfun b(x) = 10 / (x - 2);\nfun c(x) = 1 / x;\nfun add(x, y) = x + y;\nfun mix(x, y) = [x + y, x * y, x - y];\n";

/// Filters: `pairs` makes one record of two, `delay` gives each record at the next one. At the end both give what they
/// hold.
pub const HOLDING: &str =
    "fun cnt(h, v, x) = h;\nfun both(h, v, x, k) = [v, x];\nfun turn(h, v, x) = [1 - h, x];\nfun rest(h, v) = h;\nfun held(h, v, k) = v;\nfilter pairs { state 0, 0; count cnt; item both; next turn; flush rest; last held; }\nfun front(h, v, x, k) = v;\nfun fill(h, v, x) = [1, x];\nfilter delay { state 0, 0; count cnt; item front; next fill; flush rest; last held; }\n";

/// Filters of numbers from 0 on: `told` gives as many as a record says, `left` at the end as many as the sum of the
/// records. `tail` gives at the end three numbers from 7 and that sum on.
pub const COUNTING: &str =
    "fun same(s) = s;\nfun zero(s) = 0;\nfun three(s) = 3;\nfun none(s, x) = 0;\nfun second(s, x) = x;\nfun plus(s, x) = s + x;\nfun place(s, x, k) = k;\nfilter told { state 0; count second; item place; next plus; flush zero; last second; }\nfilter left { state 0; count none; item place; next plus; flush same; last second; }\nfilter tail { state 7; count none; item place; next plus; flush three; last plus; }\n";

pub const OVERFLOW: &[u8] = b"muesli: stage 1: overflow\n";

pub const BY_ZERO: &[u8] = b"muesli: stage 1: division by zero\n";

pub const BY_ZERO_2: &[u8] = b"muesli: stage 2: division by zero\n";

pub const BY_ZERO_3: &[u8] = b"muesli: stage 3: division by zero\n";

pub const BAD_COUNT: &[u8] = b"muesli: stage 1: bad count\n";

/// A main stage behind definitions, and what comes of it.
#[derive(Clone, Copy)]
pub enum Flow<'a> {
    /// The input and the results: all is done.
    Done(&'a str, &'a [u8], &'a [u8]),
    /// The input, the results and the message: a fault of the stream ends the run.
    Faults(&'a str, &'a [u8], &'a [u8], &'a [u8]),
}

/// Runs each flow behind these definitions, by both commands.
pub fn meet_flows(
    rt: &(impl Threads + Sync),
    alloc: Global,
    items: &str,
    flows: &[Flow<'_>],
) -> Result<(), Fail> {
    for flow in flows {
        meet_flow(rt, alloc, items, *flow)?;
    }
    Ok(())
}

fn meet_flow(
    rt: &(impl Threads + Sync),
    alloc: Global,
    items: &str,
    flow: Flow<'_>,
) -> Result<(), Fail> {
    for words in [SEQ, ROUNDS] {
        meet_by(rt, alloc, words, items, flow)?;
    }
    Ok(())
}

/// Whether a flow behind these definitions comes to this, by one command.
pub fn comes(
    rt: &(impl Threads + Sync),
    alloc: Global,
    words: &'static [&'static str],
    items: &str,
    flow: Flow<'_>,
) -> Result<bool, Fail> {
    let (main, case) = of_flow(flow);
    let script = format!(in alloc; "muesli 1;\n{items}main = {main};\n")?;
    let left = run(rt, alloc, words, script.as_str(), case.input, &WORKING)?;
    Ok(
        (left.status.code(), left.out.held(), left.err.held())
            == (case.code, case.out, case.message),
    )
}

/// Runs a flow behind these definitions, by one command.
pub fn meet_by(
    rt: &(impl Threads + Sync),
    alloc: Global,
    words: &'static [&'static str],
    items: &str,
    flow: Flow<'_>,
) -> Result<(), Fail> {
    let (main, case) = of_flow(flow);
    let script = format!(in alloc; "muesli 1;\n{items}main = {main};\n")?;
    let case = Case {
        words,
        script: script.as_str(),
        ..case
    };
    meet(rt, alloc, &case)
}

// The main stage, and the case but for the words and the script.
fn of_flow<'a>(flow: Flow<'a>) -> (&'a str, Case<'a>) {
    match flow {
        Flow::Done(main, input, out) => (main, case_of(input, out, b"", 0)),
        Flow::Faults(main, input, out, message) => (main, case_of(input, out, message, 1)),
    }
}

fn case_of<'a>(input: &'a [u8], out: &'a [u8], message: &'a [u8], code: u8) -> Case<'a> {
    Case {
        input,
        out,
        code,
        ..not_run("", message)
    }
}
