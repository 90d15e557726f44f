ghost use Rattle.std.specs.Prelude.{◌≡◌, ◌≤◌, ℕ, List, IfErr, IfOk, Option, length};
ghost use Rattle.std.specs.Io.KnownBytes.{Keeps};
ghost use Rattle.msl_base.specs.declared.limits.TheConstants.{MOST_SCRIPT_BYTES};
ghost use Rattle.msl_io.specs.Known.{Told};
ghost use Rattle.msl_line.specs.Lines.{Means};
ghost use Rattle.msl_stage.specs.Endings.{ends};
ghost use Rattle.msl_run.specs.Causes.{count, Causes, Rises};
ghost use Rattle.msl_run.specs.Messages.{Tells};
ghost use Rattle.msl_program.specs.ProgramPromise.{IsBetween};
ghost use Rattle.msl_program.specs.Runs.{RunsMain};
ghost use Rattle.msl_words.specs.Words.{command};
ghost use Rattle.msl_words.specs.declared.limits.TheConstants.{MOST_DEMO_RECORDS, MOST_PROCESSES};
ghost use Rattle.msl_run.specs.Scripts.{IsPlanned, IsScriptIn, IsScriptOf, Declines};
ghost use Rattle.msl_run.specs.Statuses.{Flushed, IsRefusal, IsComplete, IsHandedOn};
ghost use Rattle.msl_run.specs.TopCall.{check_text, AsksFor, By, ByGiven, Checks, Demonstrates, FetchesNothing, IsAsked, IsRunnable, OfCommand, OfFile, ReadsNothing, Runs, WithNeed, Wrote};

use crate::message::tell;
use crate::status::Status;
use msl_base::NoMemory;
use msl_base::limits::MOST_SCRIPT_BYTES;
use msl_demo::{DEMO_NEED, demo_line};
use msl_io::{Fetched, Library, Piece, Sink, Source, WriteFault, write_text};
use msl_line::{How, line_of};
use msl_script::{PlanFault, Script, ScriptFault, Teams, need, plan, print_script, read_script};
use msl_stage::run_rounds;
use msl_words::{Command, Words, WordsFault, command_of};
use std::alloc::Global;
use std::thread::Threads;

/// Runs the command that the words are. `seq` and `rounds` fetch a script from `lib`, read records from `src` and write
/// results to `out`; `check` reads nothing and writes the canonical text and the line with the need; `demo` makes records
/// of its own, runs them through a script of its own, and writes one line on what came out. It flushes `out`, and writes
/// the message of the answer to `err`, unless it is `Done`. It always returns, and uses threads only to wait for what
/// they were given, at `rounds` and `demo` alone.
///
/// `seq` makes of the stream what `SeqRuns` says, with the results in the order of the input; `rounds` what `RunsMain`
/// says, which leaves the order of a farm's results open, and which of several best solutions a search gives. The line of
/// `demo` is one that `DemoGives` says by that meaning.
///
/// `Usage` comes exactly where the words are no command. Of the script's file, `ScriptLong` comes where it has more than
/// 1,048,576 bytes, else `Script` where it is no script, with the first test that fails and its place, else `Need` where
/// the command asks how many processes the script needs, and it needs more than there are: there nothing else comes but
/// `Library` and `Memory`, and none of the three comes anywhere else. `rounds` and `demo` ask, `check` where it was given
/// a number, `seq` never. `Library`, `Read` and `Write` come only where the object counted a fault in this call, and
/// `Memory` where memory ran out, which no clause says. No fault is passed over: a count rises at these alone.
///
/// The clause `ran` says what was read and written at each answer. Where the library doesn't tell its files it speaks of
/// some text, and where the sink doesn't tell its bytes of some that were written. Where the source doesn't tell its
/// bytes, it says of them only that the sink grew.
pub fn muesli_plain<R: Threads + Sync, L: Library, S: Source, K: Sink, E: Sink>(
    rt: &R,
    alloc: Global,
    words: &Words,
    lib: &mut L,
    src: &mut S,
    out: &mut K,
    err: &mut E,
) -> Status
    ensures ran { OfCommand (command words.now) (L.file lib.old) (ends (S.left src.old) (S.left src.new) (K.held out.old) (K.held out.new)) result }
    ensures flushed { IsHandedOn result (K.flushed out.new) (K.held out.new) }
    ensures untouched { IsRefusal result → (src.new ≡ src.old) × (out.new ≡ out.old) }
    ensures unread { ReadsNothing (command words.now) → src.new ≡ src.old }
    ensures unfetched { FetchesNothing (command words.now) → lib.new ≡ lib.old }
    ensures asked { Told (L.asked lib.old) (L.asked lib.new) (AsksFor (command words.now)) }
    ensures cause { Causes result (count (L.faults lib.old) (L.faults lib.new)) (count (S.faults src.old) (S.faults src.new)) (count (K.faults out.old) (K.faults out.new)) }
    ensures complete { IsRunnable (command words.now) (L.file lib.old) → (Rises (count (L.faults lib.old) (L.faults lib.new)) → ⊥) → (Rises (count (S.faults src.old) (S.faults src.new)) → ⊥) → (Rises (count (K.faults out.old) (K.faults out.new)) → ⊥) → IsComplete result }
    ensures message { Tells result (E.held err.old) (E.held err.new) (E.flushed err.new) (count (E.faults err.old) (E.faults err.new)) }
{
    let status = run_words(rt, alloc, words, lib, src, out);
    tell(err, &status);
    status
}

// Runs the command that the words are.
fn run_words<'r, R: Threads + Sync, L: Library, S: Source, K: Sink>(
    rt: &'r R,
    alloc: Global,
    words: &Words,
    lib: &mut L,
    src: &mut S,
    out: &mut K,
) -> Status
    ensures ran { OfCommand (command words.now) (L.file lib.old) (ends (S.left src.old) (S.left src.new) (K.held out.old) (K.held out.new)) result }
    ensures flushed { IsHandedOn result (K.flushed out.new) (K.held out.new) }
    ensures untouched { IsRefusal result → (src.new ≡ src.old) × (out.new ≡ out.old) }
    ensures unread { ReadsNothing (command words.now) → src.new ≡ src.old }
    ensures unfetched { FetchesNothing (command words.now) → lib.new ≡ lib.old }
    ensures asked { Told (L.asked lib.old) (L.asked lib.new) (AsksFor (command words.now)) }
    ensures cause { Causes result (count (L.faults lib.old) (L.faults lib.new)) (count (S.faults src.old) (S.faults src.new)) (count (K.faults out.old) (K.faults out.new)) }
{
    match command_of(alloc, words) {
        Ok(Command::Seq(file)) => {
            let how: How<'r, R> = How::InTurn;
            run_file(alloc, file.as_str(), how, lib, src, out)
        }
        Ok(Command::Rounds(file, have)) => {
            rounds_file(rt, alloc, file.as_str(), have, lib, src, out)
        }
        Ok(Command::Check(file, have)) => check_file(alloc, file.as_str(), have, lib, out),
        Ok(Command::Demo(records, have)) => demonstrate(rt, alloc, records, have, out),
        Err(WordsFault::Usage) => Status::Usage,
        Err(WordsFault::NoMemory) => Status::Memory,
    }
}

// Runs the script of a file.
fn run_file<R: Threads + Sync, L: Library, S: Source, K: Sink>(
    alloc: Global,
    name: &str,
    how: How<'_, R>,
    lib: &mut L,
    src: &mut S,
    out: &mut K,
) -> Status
    ensures ran { OfFile (Runs (Means how.entry)) (L.file lib.old name.now) (ends (S.left src.old) (S.left src.new) (K.held out.old) (K.held out.new)) result }
    ensures asked { Told (L.asked lib.old) (L.asked lib.new) (IsAsked name.now) }
    ensures flushed { IsHandedOn result (K.flushed out.new) (K.held out.new) }
    ensures untouched { IsRefusal result → (src.new ≡ src.old) × (out.new ≡ out.old) }
    ensures cause { Causes result (count (L.faults lib.old) (L.faults lib.new)) (count (S.faults src.old) (S.faults src.new)) (count (K.faults out.old) (K.faults out.new)) }
{
    match script_of(alloc, name, lib) {
        Ok(script) => run_script(alloc, &script, how, src, out),
        Err(status) => status,
    }
}

// Runs the script of a file with so many processes.
fn rounds_file<R: Threads + Sync, L: Library, S: Source, K: Sink>(
    rt: &R,
    alloc: Global,
    name: &str,
    have: u32,
    lib: &mut L,
    src: &mut S,
    out: &mut K,
) -> Status
    requires { IsBetween 1 MOST_PROCESSES have }
    ensures ran { OfFile (By have (Runs RunsMain)) (L.file lib.old name.now) (ends (S.left src.old) (S.left src.new) (K.held out.old) (K.held out.new)) result }
    ensures asked { Told (L.asked lib.old) (L.asked lib.new) (IsAsked name.now) }
    ensures flushed { IsHandedOn result (K.flushed out.new) (K.held out.new) }
    ensures untouched { IsRefusal result → (src.new ≡ src.old) × (out.new ≡ out.old) }
    ensures cause { Causes result (count (L.faults lib.old) (L.faults lib.new)) (count (S.faults src.old) (S.faults src.new)) (count (K.faults out.old) (K.faults out.new)) }
{
    match script_of(alloc, name, lib) {
        Ok(script) => run_planned(rt, alloc, &script, have, src, out),
        Err(status) => status,
    }
}

// Runs a script with so many processes.
fn run_planned<R: Threads + Sync, S: Source, K: Sink>(
    rt: &R,
    alloc: Global,
    script: &Script,
    have: u32,
    src: &mut S,
    out: &mut K,
) -> Status
    requires { IsBetween 1 MOST_PROCESSES have }
    ensures ran { By have (Runs RunsMain) script.now (ends (S.left src.old) (S.left src.new) (K.held out.old) (K.held out.new)) result }
    ensures flushed { IsHandedOn result (K.flushed out.new) (K.held out.new) }
    ensures untouched { IsRefusal result → (src.new ≡ src.old) × (out.new ≡ out.old) }
    ensures cause { Causes result (count 0 0) (count (S.faults src.old) (S.faults src.new)) (count (K.faults out.old) (K.faults out.new)) }
{
    // Its main stage names only what is there, which the ending for want of memory rests on.
    script.main();
    // A run of a stage has as many members as its team.
    match planned(alloc, script, have) {
        Ok(_teams) => run_script(alloc, script, How::Beside(rt), src, out),
        Err(status) => status,
    }
}

// Which members work on which stage of a script, or why there is no plan.
fn planned(alloc: Global, script: &Script, have: u32) -> Result<Teams, Status>
    requires { IsBetween 1 MOST_PROCESSES have }
    ensures { IsPlanned script.now have result }
{
    match plan(alloc, script, have) {
        Ok(teams) => Ok(teams),
        Err(PlanFault::Need { need, have }) => Err(Status::Need { need, have }),
        Err(PlanFault::NoMemory) => Err(Status::Memory),
    }
}

// Runs a script.
fn run_script<R: Threads + Sync, S: Source, K: Sink>(
    alloc: Global,
    script: &Script,
    how: How<'_, R>,
    src: &mut S,
    out: &mut K,
) -> Status
    ensures ran { Runs (Means how.entry) script.now (ends (S.left src.old) (S.left src.new) (K.held out.old) (K.held out.new)) result }
    ensures flushed { IsHandedOn result (K.flushed out.new) (K.held out.new) }
    ensures untouched { IsRefusal result → (src.new ≡ src.old) × (out.new ≡ out.old) }
    ensures cause { Causes result (count 0 0) (count (S.faults src.old) (S.faults src.new)) (count (K.faults out.old) (K.faults out.new)) }
{
    // Its main stage names only what is there, which the ending for want of memory rests on.
    script.main();
    let Ok(line) = line_of(alloc, script, how) else {
        return Status::Memory;
    };
    Status::of_end(run_rounds(alloc, script.funs(), line, src, out))
}

// Checks the script of a file. Where `have` isn't 0, there are so many processes for it.
fn check_file<L: Library, K: Sink>(
    alloc: Global,
    name: &str,
    have: u32,
    lib: &mut L,
    out: &mut K,
) -> Status
    ensures checked { (left : Option (List ℕ)) → OfFile (ByGiven have Checks) (L.file lib.old name.now) (ends left left (K.held out.old) (K.held out.new)) result }
    ensures asked { Told (L.asked lib.old) (L.asked lib.new) (IsAsked name.now) }
    ensures flushed { IsHandedOn result (K.flushed out.new) (K.held out.new) }
    ensures untouched { IsRefusal result → out.new ≡ out.old }
    ensures cause { Causes result (count (L.faults lib.old) (L.faults lib.new)) (count 0 0) (count (K.faults out.old) (K.faults out.new)) }
{
    match script_of(alloc, name, lib) {
        Ok(script) => check_given(alloc, &script, have, out),
        Err(status) => status,
    }
}

// Checks a script. Where `have` isn't 0, there are so many processes for it.
fn check_given<K: Sink>(alloc: Global, script: &Script, have: u32, out: &mut K) -> Status
    ensures checked { (left : Option (List ℕ)) → ByGiven have Checks script.now (ends left left (K.held out.old) (K.held out.new)) result }
    ensures flushed { IsHandedOn result (K.flushed out.new) (K.held out.new) }
    ensures untouched { IsRefusal result → out.new ≡ out.old }
    ensures cause { Causes result (count 0 0) (count 0 0) (count (K.faults out.old) (K.faults out.new)) }
{
    let needed = need(script);
    if have > 0 && needed > u64::from(have) {
        return Status::Need { need: needed, have };
    }
    match check_text(alloc, script) {
        Ok(text) => put(text.as_slice(), out),
        Err(NoMemory) => Status::Memory,
    }
}

// Writes the line that so many records give, where there are as many processes as they need.
fn demonstrate<R: Threads + Sync, K: Sink>(
    rt: &R,
    alloc: Global,
    records: u32,
    have: u32,
    out: &mut K,
) -> Status
    requires { records ≤ MOST_DEMO_RECORDS }
    ensures demonstrated { (left : Option (List ℕ)) → WithNeed DEMO_NEED have (Demonstrates records) (ends left left (K.held out.old) (K.held out.new)) result }
    ensures flushed { IsHandedOn result (K.flushed out.new) (K.held out.new) }
    ensures untouched { IsRefusal result → out.new ≡ out.old }
    ensures cause { Causes result (count 0 0) (count 0 0) (count (K.faults out.old) (K.faults out.new)) }
{
    if have < DEMO_NEED {
        return Status::Need {
            need: u64::from(DEMO_NEED),
            have,
        };
    }
    match demo_line(rt, alloc, records) {
        Ok(line) => put(line.as_slice(), out),
        Err(NoMemory) => Status::Memory,
    }
}

// Writes a text, and flushes it.
fn put<K: Sink>(text: &[u8], out: &mut K) -> Status
    ensures wrote { Wrote (λ t. t ≡ text.now) (K.held out.old) (K.held out.new) result }
    ensures flushed { IsHandedOn result (K.flushed out.new) (K.held out.new) }
    ensures untouched { IsRefusal result → out.new ≡ out.old }
    ensures cause { Causes result (count 0 0) (count 0 0) (count (K.faults out.old) (K.faults out.new)) }
{
    match write_text(out, text) {
        Ok(()) => flushed(out),
        Err(WriteFault) => Status::Write,
    }
}

// Flushes what was written.
fn flushed<K: Sink>(out: &mut K) -> Status
    ensures kept { Keeps (K.held out.old) (K.held out.new) }
    ensures status { Flushed result (K.faults out.old) (K.faults out.new) }
    ensures flushed { IsHandedOn result (K.flushed out.new) (K.held out.new) }
{
    match out.flush() {
        Ok(()) => Status::Done,
        Err(_) => Status::Write,
    }
}

// The canonical text of a script, and how many processes it needs.
fn check_text(alloc: Global, script: &Script) -> Result<Vec<u8>, NoMemory>
    ensures { IfOk result (λ t. t.items ≡ check_text script.now) }
{
    let mut text = print_script(alloc, script)?.into_vec();
    let mut last = Piece::new();
    last.push_bytes(b"# need ");
    last.push_decimal(need(script));
    last.push(b'\n');
    text.extend_from_slice(last.as_slice())?;
    Ok(text)
}

// The script of a file, or why there is none.
fn script_of<L: Library>(alloc: Global, name: &str, lib: &mut L) -> Result<Script, Status>
    ensures script { IsScriptOf (L.file lib.old name.now) result }
    ensures asked { Told (L.asked lib.old) (L.asked lib.new) (IsAsked name.now) }
    ensures cause { Declines result (count (L.faults lib.old) (L.faults lib.new)) }
{
    match lib.fetch(alloc, name, MOST_SCRIPT_BYTES) {
        Fetched::Bytes(text) => script_in(alloc, text.as_slice()),
        Fetched::Long => Err(Status::ScriptLong),
        Fetched::Failed => Err(Status::Library),
        Fetched::NoMemory => Err(Status::Memory),
    }
}

// The script of a text, or why it is none.
fn script_in(alloc: Global, text: &[u8]) -> Result<Script, Status>
    requires { length text.now ≤ MOST_SCRIPT_BYTES }
    ensures script { IsScriptIn text.now result }
    ensures read { IfErr result (λ s. s ≡ Status.Library → ⊥) }
{
    match read_script(alloc, text) {
        Ok(script) => Ok(script),
        Err(ScriptFault::At(kind, at)) => Err(Status::Script(kind, at)),
        Err(ScriptFault::NoMemory) => Err(Status::Memory),
    }
}
