//! The exit status and the message of each way in which a run ends.

use msl_base::{Fault, Path};
use msl_io::{Calls, MemSink};
use msl_lex::Kind;
use msl_run::{Status, tell};
use std::alloc::Global;
use std::process::Abort;
use std::test::Fail;

// These tables are no references: a constant can't borrow what may hold a path.
const TOLD: [(Status, u8, &str); 9] = [
    (Status::Done, 0, ""),
    (
        Status::Usage,
        2,
        "muesli: usage: muesli seq FILE, rounds FILE, run FILE, check FILE or demo N, with -p N and for run -t T\n",
    ),
    (Status::Library, 3, "muesli: cannot read script\n"),
    (Status::ScriptLong, 2, "muesli: script too long\n"),
    (
        Status::Script(Kind::LongName, 1_048_512),
        2,
        "muesli: script: long name at 1048512\n",
    ),
    (
        Status::Need {
            need: 262_145,
            have: 64,
        },
        2,
        "muesli: need 262145 processes, have 64\n",
    ),
    (Status::Read, 3, "muesli: read fault\n"),
    (Status::Write, 3, "muesli: write fault\n"),
    (Status::Memory, 4, "muesli: out of memory\n"),
];

const FAULTS: [(Fault, &str); 11] = [
    (Fault::BadRecord(7), "muesli: line 7: bad record\n"),
    (
        Fault::LongLine(4_294_967_295),
        "muesli: line 4294967295: line too long\n",
    ),
    (Fault::WideRecord(1), "muesli: line 1: too many numbers\n"),
    (Fault::ManyLines, "muesli: too many lines\n"),
    (
        Fault::Shape(1, 0, 16),
        "muesli: stage 1: record of 0 numbers, 16 wanted\n",
    ),
    (Fault::Overflow(64), "muesli: stage 64: overflow\n"),
    (Fault::DivZero(2), "muesli: stage 2: division by zero\n"),
    (Fault::Steps(3), "muesli: stage 3: too many steps\n"),
    (Fault::Count(4), "muesli: stage 4: bad count\n"),
    (
        Fault::NotPermutation(5),
        "muesli: stage 5: not a permutation\n",
    ),
    (Fault::Ragged(6), "muesli: stage 6: blocks differ in size\n"),
];

// Faults at a node, whose message ends with the path to it.
fn at_node(path: Path) -> [(Fault, &'static str); 3] {
    [
        (Fault::Depth(1, path), "muesli: stage 1: too deep at "),
        (
            Fault::BoundBroken(20, path),
            "muesli: stage 20: bound broken at ",
        ),
        (
            Fault::Value(64, path),
            "muesli: stage 64: no such value at ",
        ),
    ]
}

// The steps of a path, and its text.
const PATHS: &[(&[u8], &str)] = &[
    (&[], "root"),
    (&[0], "0"),
    (&[5, 63, 0, 10], "5.63.0.10"),
    (
        &[63; 64],
        "63.63.63.63.63.63.63.63.63.63.63.63.63.63.63.63.63.63.63.63.63.63.63.63.63.63.63.63.63.63.63.63.63.63.63.63.63.63.63.63.63.63.63.63.63.63.63.63.63.63.63.63.63.63.63.63.63.63.63.63.63.63.63.63",
    ),
];

fn path_of(steps: &[u8]) -> Option<Path> {
    let mut path = Path::root();
    for step in steps {
        path = path.push((*step).min(63))?;
    }
    Some(path)
}

// A status has this exit status, and its message this text.
fn is_told(
    rt: &impl Abort,
    alloc: Global,
    status: &Status,
    code: u8,
    message: &str,
) -> Result<(), Fail> {
    let mut err = MemSink::new(alloc, 320, 320, Calls::new(alloc))?;
    tell(&mut err, status);
    assert_eq!(rt; (status.code(), err.held()), (code, message.as_bytes()));
    Ok(())
}

#[test]
fn each_ending_is_told(rt: HostRuntime) -> Result<(), Fail> {
    for (status, code, message) in TOLD {
        is_told(&rt, rt.alloc(), &status, code, message)?;
    }
    for (fault, message) in FAULTS {
        is_told(&rt, rt.alloc(), &Status::Stream(fault), 1, message)?;
    }
    Ok(())
}

#[test]
fn a_path_is_told(rt: HostRuntime) -> Result<(), Fail> {
    for (steps, text) in PATHS {
        let path = path_of(steps).ok_or("too many steps")?;
        for (fault, before) in at_node(path) {
            let message = format!(in rt.alloc(); "{before}{text}\n")?;
            is_told(&rt, rt.alloc(), &Status::Stream(fault), 1, message.as_str())?;
        }
    }
    Ok(())
}
