ghost use Rattle.std.specs.Prelude.{◌≡◌, ◌++◌, ◌∷◌, ◌≤◌, ◌+◌, [], length, codes, decimal};
ghost use Rattle.msl_base.specs.Paths.{AreSteps};
ghost use Rattle.msl_run.specs.Causes.{count};
ghost use Rattle.msl_run.specs.Messages.{Tells, message_of, kind_text, fault_text, line_of, at_line, at_stage, path_text, dotted};

use crate::status::Status;
use msl_base::{Fault, Path};
use msl_io::{Piece, Sink, write_text};
use msl_lex::Kind;

/// The longest reason is the list of the commands.
const REASON: usize = 100;

/// So long are the reasons of a refusal, and those that stand before a path.
const SHORT_REASON: usize = 20;

/// Before a reason stand `muesli: `, a place of at most ten bytes, a number of at most 20 and `: `.
const PLACE: usize = 40;

/// Before a path stand a place and a short reason.
const UP_TO_PATH: usize = 60;

/// A path has at most so many steps.
const STEPS: usize = 64;

/// A step has at most two digits, and each but the first a dot before it. A piece has room for that and a line's end.
const WITH_PATH: usize = 260;

/// Writes the message of a status, one line, and nothing after `Done`. A fault of the sink changes nothing else.
pub fn tell<E: Sink>(err: &mut E, status: &Status)
    ensures { Tells status.now (E.held err.old) (E.held err.new) (E.flushed err.new) (count (E.faults err.old) (E.faults err.new)) }
{
    let message = message(status);
    if let Ok(()) = write_text(err, message.as_slice()) {
        let _ = err.flush();
    }
}

fn message(status: &Status) -> Piece
    ensures { result ≡ message_of status.now }
{
    match status {
        Status::Done => Piece::new(),
        Status::Usage => line(
            b"usage: muesli seq FILE, rounds FILE, run FILE, check FILE or demo N, with -p N and for run -t T",
        ),
        Status::Library => line(b"cannot read script"),
        Status::ScriptLong => line(b"script too long"),
        Status::Script(kind, at) => script_message(*kind, *at),
        Status::Need { need, have } => need_message(*need, *have),
        Status::Stream(fault) => fault_message(*fault),
        Status::Read => line(b"read fault"),
        Status::Write => line(b"write fault"),
        Status::Memory => line(b"out of memory"),
    }
}

fn script_message(kind: Kind, at: u32) -> Piece
    ensures { result ≡ message_of (Status.Script kind at) }
{
    let mut piece = Piece::new();
    piece.push_bytes(b"muesli: script: ");
    piece.push_bytes(kind_text(kind));
    piece.push_bytes(b" at ");
    piece.push_decimal(u64::from(at));
    piece.push(b'\n');
    piece
}

fn need_message(need: u64, have: u32) -> Piece
    ensures { result ≡ message_of (Status.Need need have) }
{
    let mut piece = Piece::new();
    piece.push_bytes(b"muesli: need ");
    piece.push_decimal(need);
    piece.push_bytes(b" processes, have ");
    piece.push_decimal(u64::from(have));
    piece.push(b'\n');
    piece
}

// Why a script is refused.
fn kind_text(kind: Kind) -> &'static [u8]
    ensures text { result.now ≡ kind_text kind }
    ensures short { length result.now ≤ SHORT_REASON }
{
    match kind {
        Kind::Expected => b"expected",
        Kind::Version => b"version",
        Kind::InFarm => b"filter in farm",
        Kind::Many => b"many",
        Kind::Deep => b"deep",
        Kind::Twice => b"twice",
        Kind::Unknown => b"unknown",
        Kind::WrongKind => b"wrong kind",
        Kind::Width => b"width",
        Kind::Range => b"range",
        Kind::Byte => b"byte",
        Kind::LongName => b"long name",
        Kind::Number => b"number",
    }
}

fn fault_message(fault: Fault) -> Piece
    ensures { result ≡ line_of (fault_text fault) }
{
    match fault {
        Fault::BadRecord(n) => line_message(n, b"bad record"),
        Fault::LongLine(n) => line_message(n, b"line too long"),
        Fault::WideRecord(n) => line_message(n, b"too many numbers"),
        Fault::ManyLines => line(b"too many lines"),
        Fault::Shape(stage, got, want) => shape_message(stage, got, want),
        Fault::Overflow(stage) => stage_message(stage, b"overflow"),
        Fault::DivZero(stage) => stage_message(stage, b"division by zero"),
        Fault::Steps(stage) => stage_message(stage, b"too many steps"),
        Fault::Count(stage) => stage_message(stage, b"bad count"),
        Fault::NotPermutation(stage) => stage_message(stage, b"not a permutation"),
        Fault::Ragged(stage) => stage_message(stage, b"blocks differ in size"),
        Fault::Depth(stage, path) => path_message(stage, b"too deep at ", &path),
        Fault::BoundBroken(stage, path) => path_message(stage, b"bound broken at ", &path),
        Fault::Value(stage, path) => path_message(stage, b"no such value at ", &path),
    }
}

fn line(what: &[u8]) -> Piece
    requires { length what.now ≤ REASON }
    ensures { result ≡ line_of what.now }
{
    let mut piece = Piece::new();
    piece.push_bytes(b"muesli: ");
    piece.push_bytes(what);
    piece.push(b'\n');
    piece
}

// The beginning of a message about a numbered place.
fn numbered(place: &[u8], number: u32) -> Piece
    requires { length place.now ≤ 10 }
    ensures text { result ≡ codes "muesli: " ++ place.now ++ decimal number ++ codes ": " }
    ensures short { length result ≤ PLACE }
{
    let mut piece = Piece::new();
    piece.push_bytes(b"muesli: ");
    piece.push_bytes(place);
    piece.push_decimal(u64::from(number));
    piece.push_bytes(b": ");
    piece
}

fn line_message(number: u32, what: &[u8]) -> Piece
    requires { length what.now ≤ REASON }
    ensures { result ≡ line_of (at_line number what.now) }
{
    let mut piece = numbered(b"line ", number);
    piece.push_bytes(what);
    piece.push(b'\n');
    piece
}

fn stage_message(stage: u32, what: &[u8]) -> Piece
    requires { length what.now ≤ REASON }
    ensures { result ≡ line_of (at_stage stage what.now) }
{
    let mut piece = numbered(b"stage ", stage);
    piece.push_bytes(what);
    piece.push(b'\n');
    piece
}

fn shape_message(stage: u32, got: u64, want: u64) -> Piece
    ensures { result ≡ line_of (fault_text (Fault.Shape stage got want)) }
{
    let mut piece = numbered(b"stage ", stage);
    piece.push_bytes(b"record of ");
    piece.push_decimal(got);
    piece.push_bytes(b" numbers, ");
    piece.push_decimal(want);
    piece.push_bytes(b" wanted");
    piece.push(b'\n');
    piece
}

fn path_message(stage: u32, what: &[u8], path: &Path) -> Piece
    requires { length what.now ≤ SHORT_REASON }
    ensures { result ≡ line_of (at_stage stage (what.now ++ path_text path.now)) }
{
    let mut piece = numbered(b"stage ", stage);
    piece.push_bytes(what);
    push_path(&mut piece, path.as_slice());
    piece.push(b'\n');
    piece
}

// Appends a path: its steps with dots between, or `root`.
fn push_path(piece: &mut Piece, steps: &[u8])
    requires steps { AreSteps steps.now }
    requires few { length steps.now ≤ STEPS }
    requires room { length piece.old ≤ UP_TO_PATH }
    ensures text { piece.new ≡ piece.old ++ path_text steps.now }
    ensures room { length piece.new ≤ WITH_PATH }
{
    match steps {
        [] => piece.push_bytes(b"root"),
        [first, others @ ..] => {
            piece.push_decimal(u64::from(*first));
            push_dotted(piece, others);
        }
    }
}

// Appends steps, a dot before each.
fn push_dotted(piece: &mut Piece, steps: &[u8])
    requires steps { AreSteps steps.now }
    requires few { length steps.now + 1 ≤ STEPS }
    requires room { length piece.old ≤ UP_TO_PATH + 2 }
    ensures text { piece.new ≡ piece.old ++ dotted steps.now }
    ensures room { length piece.new ≤ WITH_PATH }
{
    for step in steps {
        piece.push(b'.');
        piece.push_decimal(u64::from(*step));
    }
}
