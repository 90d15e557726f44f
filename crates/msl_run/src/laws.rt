//! What follows from the contract of the top call, each law the contract of a function that makes one call of it.

ghost use Rattle.msl_run.specs.Causes.{count, Rises};
ghost use Rattle.msl_run.specs.Statuses.{IsComplete};
ghost use Rattle.msl_run.specs.TopCall.{IsRunnable};
ghost use Rattle.msl_words.specs.Words.{command};

use crate::{Status, Words, muesli_plain};
use msl_io::{Library, Sink, SteadySource};
use std::alloc::Global;
use std::thread::Threads;

/// Over a source that never fails, a script that is told, with as many processes as are asked for, ends as its stream
/// does, or memory ran out, unless the library or the sink counts a fault.
pub fn steady_source<R: Threads + Sync, L: Library, K: Sink, E: Sink>(
    rt: &R,
    alloc: Global,
    words: &Words,
    lib: &mut L,
    src: &mut SteadySource,
    out: &mut K,
    err: &mut E,
) -> Status
    requires { IsRunnable (command words.now) (L.file lib.old) }
    ensures { (Rises (count (L.faults lib.old) (L.faults lib.new)) → ⊥) → (Rises (count (K.faults out.old) (K.faults out.new)) → ⊥) → IsComplete result }
{
    muesli_plain(rt, alloc, words, lib, src, out, err)
}
