ghost use Rattle.std.specs.Prelude.{◌≡◌};
ghost use Rattle.std.specs.List.{list_any};
ghost use Rattle.std.specs.Str.{bytes_eq};
ghost use Rattle.msl_lex.specs.Names.{reserved};
ghost use Rattle.msl_base.specs.Names.{is_among};

// The words that are no names.
const RESERVED: [&str; 58] = [
    "muesli",
    "main",
    "fun",
    "data",
    "filter",
    "divcon",
    "bnb",
    "if",
    "then",
    "else",
    "let",
    "in",
    "loop",
    "below",
    "or",
    "and",
    "not",
    "min",
    "max",
    "give",
    "array",
    "at",
    "len",
    "matrix",
    "grid",
    "map",
    "mapIndex",
    "zip",
    "zipIndex",
    "fold",
    "scan",
    "foldl",
    "permutePartition",
    "permute",
    "broadcastPartition",
    "rotateRows",
    "rotateCols",
    "transpose",
    "state",
    "count",
    "item",
    "next",
    "flush",
    "last",
    "parts",
    "cutoff",
    "simple",
    "solve",
    "divide",
    "combine",
    "bound",
    "solved",
    "value",
    "branch",
    "atomic",
    "on",
    "farm",
    "pipe",
];

// Whether one of the words is this one.
fn is_among(words: &[&str], word: &[u8]) -> bool
    ensures { result ≡ list_any (λ w. bytes_eq word.now w.now) words.now }
{
    for w in words {
        if word == w.as_bytes() {
            return true;
        }
    }
    false
}

/// Whether the grammar quotes a word, so that it is no name.
pub fn is_reserved(word: &[u8]) -> bool
    ensures { result ≡ is_among reserved word.now }
{
    is_among(&RESERVED, word)
}
