//! Runs a skeleton program over lines of whole numbers.
//!
//! `main` takes the words of the command line and calls `msl_run::muesli_plain` on the real objects: the files of the
//! system, the standard input, the standard output behind a buffer, and the error output. Words that aren't all text
//! are taken to be none, which is answered by the usage message. The program ends with the number of the status
//! (`Status::code`).
//!
//! `main` has no contract. It is safe, and returns; that it hands in these streams and ends with that number is only
//! tested. `rt ci` runs it on the words of `args` and the input of `stdin`, with `data/square.muesli`, and compares
//! what it writes with `stdout`.
#![tactic(auto)]

use msl_base::{Name, NoMemory};
use msl_io::{RealLibrary, RealSink, RealSource, Sink};
use msl_run::{Status, Words, muesli_plain, tell};
use std::process::ExitCode;
use std::rt::Env;
use std::{env, io};

fn main(rt: HostRuntime) -> io::Result<ExitCode> {
    let alloc = rt.alloc();
    let mut err = RealSink::new(rt.stderr());
    let status = match words(&rt) {
        Ok(words) => {
            let mut lib = RealLibrary::new(rt);
            let mut src = RealSource::new(rt.stdin());
            match io::BufWriter::new(alloc, rt.stdout()) {
                Ok(writer) => {
                    let mut out = RealSink::new(writer);
                    muesli_plain(&rt, alloc, &words, &mut lib, &mut src, &mut out, &mut err)
                }
                // It fails for want of memory alone.
                Err(_) => tell_memory(&mut err),
            }
        }
        Err(NoMemory) => tell_memory(&mut err),
    };
    Ok(ExitCode::from(status.code()))
}

fn tell_memory<E: Sink>(err: &mut E) -> Status {
    tell(err, &Status::Memory);
    Status::Memory
}

// The words of the command line, without the program's name. Where one of them isn't text there is no command, as
// where there is no word.
fn words<R: Env + AllocGlobal>(rt: &R) -> Result<Words, NoMemory> {
    let mut words = Words::new(rt.alloc());
    let args = match env::args(rt) {
        Ok(args) => args,
        Err(e) if e.kind() == io::ErrorKind::OutOfMemory => return Err(NoMemory),
        Err(_) => return Ok(words),
    };
    for arg in args.skip(1) {
        words.add(Name::of(rt.alloc(), arg.as_str())?)?;
    }
    Ok(words)
}
