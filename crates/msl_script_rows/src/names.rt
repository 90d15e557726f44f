// Names: which are taken, which are known, and what each has to be.

use crate::answers::{FIRST, FUNS, ITEMS, are_answered};
use std::test::Fail;

// Words that are names.
const FREE: &[&str] = &[
    "read: fun sum(sum) = sum; main = atomic sum;",
    "read: fun xor(xor) = xor; main = atomic xor;",
    "read: fun gcd(gcd) = gcd; main = atomic gcd;",
    "read: fun addmod(addmod) = addmod; main = atomic addmod;",
    "read: fun mulmod(mulmod) = mulmod; main = atomic mulmod;",
    "read: fun Main(Main) = Main; main = atomic Main;",
    "read: fun FUN(FUN) = FUN; main = atomic FUN;",
    "read: fun _(_) = _; main = atomic _;",
    "read: fun _1(_1) = _1; main = atomic _1;",
    "read: fun maps(maps) = maps; main = atomic maps;",
    "read: fun iff(iff) = iff; main = atomic iff;",
];

#[test]
fn other_words_are_names(rt: HostRuntime) -> Result<(), Fail> {
    are_answered(&rt, rt.alloc(), &[FIRST], FREE)
}

// Texts behind which a name comes into being, and which of them are declared in the one space of all kinds.
const OF_NAMES: &[&str] = &["fun ", "data ", "filter ", "divcon ", "bnb ", "fun g("];

const OF_DECLARED: &[&str] = &["fun ", "data ", "filter ", "divcon ", "bnb "];

// Every word that the grammar quotes.
const RESERVED: &[&str] = &[
    "Expected: ^muesli",
    "Expected: ^main",
    "Expected: ^fun",
    "Expected: ^if",
    "Expected: ^then",
    "Expected: ^else",
    "Expected: ^let",
    "Expected: ^in",
    "Expected: ^loop",
    "Expected: ^below",
    "Expected: ^or",
    "Expected: ^and",
    "Expected: ^not",
    "Expected: ^min",
    "Expected: ^max",
    "Expected: ^data",
    "Expected: ^give",
    "Expected: ^array",
    "Expected: ^at",
    "Expected: ^len",
    "Expected: ^matrix",
    "Expected: ^grid",
    "Expected: ^map",
    "Expected: ^mapIndex",
    "Expected: ^zip",
    "Expected: ^zipIndex",
    "Expected: ^fold",
    "Expected: ^scan",
    "Expected: ^foldl",
    "Expected: ^permutePartition",
    "Expected: ^permute",
    "Expected: ^broadcastPartition",
    "Expected: ^rotateRows",
    "Expected: ^rotateCols",
    "Expected: ^transpose",
    "Expected: ^filter",
    "Expected: ^state",
    "Expected: ^count",
    "Expected: ^item",
    "Expected: ^next",
    "Expected: ^flush",
    "Expected: ^last",
    "Expected: ^divcon",
    "Expected: ^parts",
    "Expected: ^cutoff",
    "Expected: ^simple",
    "Expected: ^solve",
    "Expected: ^divide",
    "Expected: ^combine",
    "Expected: ^bnb",
    "Expected: ^bound",
    "Expected: ^solved",
    "Expected: ^value",
    "Expected: ^branch",
    "Expected: ^atomic",
    "Expected: ^on",
    "Expected: ^farm",
    "Expected: ^pipe",
];

const TAKEN: &[&str] = &[
    "Twice: ^f11",
    "Twice: ^w16",
    "Twice: ^d",
    "Twice: ^fl",
    "Twice: ^dv",
    "Twice: ^bn",
];

// Texts behind which a function is named.
const OF_FUNCTIONS: &[&str] = &[
    "data g { a = array 1; c = map ",
    "data g { a = array 1; c = mapIndex ",
    "data g { a = array 1; c = zip ",
    "data g { a = array 1; c = zipIndex ",
    "data g { a = array 1; c = foldl ",
    "data g { a = array 1; c = permutePartition ",
    "data g { a = array 1; c = permute ",
    "data g { a = array 1; c = rotateRows ",
    "data g { a = array 1; c = rotateCols ",
    "filter g { state 0, 0; count ",
    "filter g { state 0, 0; count f31; item ",
    "filter g { state 0, 0; count f31; item f41; next ",
    "filter g { state 0, 0; count f31; item f41; next f32; flush ",
    "filter g { state 0, 0; count f31; item f41; next f32; flush f21; last ",
    "divcon g { parts 2; cutoff 3; simple ",
    "divcon g { parts 2; cutoff 3; simple f21; solve ",
    "divcon g { parts 2; cutoff 3; simple f21; solve f21; divide ",
    "divcon g { parts 2; cutoff 3; simple f21; solve f21; divide f32; combine ",
    "bnb g { bound ",
    "bnb g { bound f11; solved ",
    "bnb g { bound f11; solved f11; value ",
    "bnb g { bound f11; solved f11; value f11; count ",
    "bnb g { bound f11; solved f11; value f11; count f11; branch ",
    "main = atomic ",
];

// What is refused there: the other kinds, a name that is not declared, the definition's own, a line, and no names.
const NO_FUNCTIONS: &[&str] = &[
    "WrongKind: ^d",
    "WrongKind: ^fl",
    "WrongKind: ^dv",
    "WrongKind: ^bn",
    "Unknown: ^q",
    "Unknown: ^g",
    "Unknown: ^a",
    "Unknown: ^sum",
    "Expected: ^;",
    "Expected: ^(f11)",
    "Expected: ^7",
    "Expected: ^-7",
    "Expected: ^if",
    "Expected: ^",
];

// An array, a matrix and a number.
const LINES: &str = "data g { a = array 4; m = matrix 4 6 grid 2 3 at 0; n = fold sum a; c = ";

// Texts behind which a line is named: an array or a matrix, an array, a matrix, and a line of any kind.
const OF_BOTH: &[&str] = &[
    "map f11 ",
    "mapIndex f21 ",
    "zip f21 ",
    "zipIndex f31 ",
    "fold sum ",
    "fold addmod 7 ",
    // With a function of a wrong width, which is tested last.
    "map f22 ",
    "mapIndex f11 ",
    "zip f11 ",
    "zipIndex f11 ",
];

const OF_ARRAYS: &[&str] = &[
    "zip f21 a ",
    "zipIndex f31 a ",
    "scan sum ",
    "scan mulmod 7 ",
    "foldl f21 0 ",
    "foldl f21 n ",
    "permutePartition f11 ",
    "permute f11 ",
    "broadcastPartition 0 ",
    // With a function of a wrong width, which is tested last.
    "foldl f11 0 ",
    "permutePartition f12 ",
    "permute f21 ",
    // With a block that there is not, which is tested last.
    "broadcastPartition 4 ",
];

const OF_MATRICES: &[&str] = &[
    "zip f21 m ",
    "zipIndex f41 m ",
    "rotateRows f11 ",
    "rotateCols f11 ",
    "transpose ",
    // With a function of a wrong width, which is tested last.
    "rotateRows f11(1) ",
    "rotateCols f32 ",
];

const OF_ANY: &[&str] = &["array 1; give "];

// Likewise where a number is named or written.
const OF_NUMBERS: &[&str] = &[
    "map f21(",
    "map f31(1, ",
    "map f31(n, ",
    "zip f31(",
    "foldl f21 ",
    "foldl f31(n) ",
    "permute f21(",
    "rotateRows f21(",
];

// What is refused as a line: names that are not declared, are of a line that is not whole or comes later, or are
// declared elsewhere.
const NO_LINES: &[&str] = &[
    "Unknown: ^q",
    "Unknown: ^f11",
    "Unknown: ^d",
    "Unknown: ^g",
    "Expected: ^;",
    "Expected: ^)",
    "Expected: ^[a]",
    "Expected: ^give",
    "Expected: ^+",
    "Expected: ^",
];

// What is refused besides, by what is named.
const NOT_BOTH: &[&str] = &["Expected: ^7", "WrongKind: ^n"];

const NO_ARRAYS: &[&str] = &["Expected: ^7", "WrongKind: ^m", "WrongKind: ^n"];

const NO_MATRICES: &[&str] = &["Expected: ^7", "WrongKind: ^a", "WrongKind: ^n"];

const NOT_ANY: &[&str] = &["Expected: ^7"];

const NO_NUMBERS: &[&str] = &[
    "WrongKind: ^a",
    "WrongKind: ^m",
    "Expected: -^n",
    "Expected: -^-7",
];

// What stands before, texts behind which something is named, and what is refused behind each.
const NAMED: &[(&str, &[&str], &[&str])] = &[
    ("", OF_NAMES, RESERVED),
    ("", OF_DECLARED, TAKEN),
    ("", OF_FUNCTIONS, NO_FUNCTIONS),
    (LINES, OF_BOTH, NO_LINES),
    (LINES, OF_BOTH, NOT_BOTH),
    (LINES, OF_ARRAYS, NO_LINES),
    (LINES, OF_ARRAYS, NO_ARRAYS),
    (LINES, OF_MATRICES, NO_LINES),
    (LINES, OF_MATRICES, NO_MATRICES),
    (LINES, OF_ANY, NO_LINES),
    (LINES, OF_ANY, NOT_ANY),
    (LINES, OF_NUMBERS, NO_LINES),
    (LINES, OF_NUMBERS, NO_NUMBERS),
];

#[test]
fn names_are_refused(rt: HostRuntime) -> Result<(), Fail> {
    for (lines, befores, rows) in NAMED {
        for before in *befores {
            are_answered(&rt, rt.alloc(), &[FUNS, ITEMS, lines, before], rows)?;
        }
    }
    Ok(())
}
