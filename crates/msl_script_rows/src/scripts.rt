// Whole scripts, their canonical texts, and how many processes each needs.

use crate::answers::{is_read_as, read_pieces};
use msl_script::need;
use std::alloc::Global;
use std::test::Fail;

const SQUARE: &str = "muesli 1;\nfun sq(x) = x * x;\n";

const TRIANGLES: &str = "muesli 1;
fun tiny(a, b) = b - a <= 1;
fun one(a, b) = if b - a == 1 then a else 0;
fun half(a, b, j) = [if j == 0 then a else (a + b) / 2, if j == 0 then (a + b) / 2 else b];
fun add(x, y) = x + y;
divcon range { parts 2; cutoff 3; simple tiny; solve one; divide half; combine add; }
";

const TRIANGLES_TEXT: &str = "muesli 1;
fun tiny(a, b) = (b - a) <= 1;
fun one(a, b) = if (b - a) == 1 then a else 0;
fun half(a, b, j) = [if j == 0 then a else (a + b) / 2, if j == 0 then (a + b) / 2 else b];
fun add(x, y) = x + y;
divcon range {
  parts 2;
  cutoff 3;
  simple tiny;
  solve one;
  divide half;
  combine add;
}
";

const KNAPSACK: &str = "muesli 1;
fun cost(i) = if i == 0 then 3 else if i == 1 then 5 else if i == 2 then 4 else 7;
fun gain(i) = if i == 0 then 2 else if i == 1 then 4 else if i == 2 then 3 else 6;
fun low(i, c, g, r) = c;
fun ok(i, c, g, r) = g >= r;
fun kids(i, c, g, r) = if i == 4 then 0 else 2;
fun step(i, c, g, r, k) = [i + 1, c + k * cost(i), g + k * gain(i), r];
bnb pick { bound low; solved ok; value low; count kids; branch step; }
";

const KNAPSACK_TEXT: &str = "muesli 1;
fun cost(i) = if i == 0 then 3 else if i == 1 then 5 else if i == 2 then 4 else 7;
fun gain(i) = if i == 0 then 2 else if i == 1 then 4 else if i == 2 then 3 else 6;
fun low(i, c, g, r) = c;
fun ok(i, c, g, r) = g >= r;
fun kids(i, c, g, r) = if i == 4 then 0 else 2;
fun step(i, c, g, r, k) = [i + 1, c + (k * cost(i)), g + (k * gain(i)), r];
bnb pick {
  bound low;
  solved ok;
  value low;
  count kids;
  branch step;
}
";

const BROKEN: &str = "muesli 1;
fun low(x) = -x;
fun ok(x) = x == 2;
fun val(x) = 0;
fun kids(x) = if x < 2 then 1 else 0;
fun step(x, k) = x + 1;
bnb bad { bound low; solved ok; value val; count kids; branch step; }
";

const BROKEN_TEXT: &str = "muesli 1;
fun low(x) = -x;
fun ok(x) = x == 2;
fun val(x) = 0;
fun kids(x) = if x < 2 then 1 else 0;
fun step(x, k) = x + 1;
bnb bad {
  bound low;
  solved ok;
  value val;
  count kids;
  branch step;
}
";

const PAIRS: &str = "muesli 1;
fun cnt(h, v, x) = h;
fun both(h, v, x, k) = [v, x];
fun turn(h, v, x) = [1 - h, x];
fun rest(h, v) = h;
fun held(h, v, k) = v;
filter pairs { state 0, 0; count cnt; item both; next turn; flush rest; last held; }
";

const PAIRS_TEXT: &str = "muesli 1;
fun cnt(h, v, x) = h;
fun both(h, v, x, k) = [v, x];
fun turn(h, v, x) = [1 - h, x];
fun rest(h, v) = h;
fun held(h, v, k) = v;
filter pairs {
  state 0, 0;
  count cnt;
  item both;
  next turn;
  flush rest;
  last held;
}
";

const DEMO: &str = "muesli 1;
fun mix(a, b) = [a + b, a * b, a - b];
data tot {
  a = array 2;
  s = scan sum a;
  give s;
}
";

// What stands before the main stage, the same in its canonical form, the main stage, and how many processes the script
// needs.
const SCRIPTS: &[(&str, &str, &str, u64)] = &[
    (SQUARE, SQUARE, "main = atomic sq;\n", 2),
    (
        "muesli 1; fun sq(x)=x*x; # square\n",
        SQUARE,
        "main = atomic sq;\n",
        2,
    ),
    (SQUARE, SQUARE, "main = farm 3 { atomic sq };\n", 4),
    (
        SQUARE,
        SQUARE,
        "main = pipe { atomic sq; atomic sq; atomic sq; atomic sq; atomic sq };\n",
        6,
    ),
    (
        "muesli 1;\ndata t { a = array 3; b = scan sum a; give b; }\n",
        "muesli 1;\ndata t {\n  a = array 3;\n  b = scan sum a;\n  give b;\n}\n",
        "main = data t on 2;\n",
        3,
    ),
    (
        "muesli 1;\ndata t { a = array 2; b = fold sum a; give b; }\n",
        "muesli 1;\ndata t {\n  a = array 2;\n  b = fold sum a;\n  give b;\n}\n",
        "main = data t on 1;\n",
        2,
    ),
    (
        "muesli 1;\nfun nxt(i) = (i + 1) % 3;\nfun zero(i) = 0;\ndata t { a = array 3; b = permutePartition nxt a; give b; }\n",
        "muesli 1;\nfun nxt(i) = (i + 1) % 3;\nfun zero(i) = 0;\ndata t {\n  a = array 3;\n  b = permutePartition nxt a;\n  give b;\n}\n",
        "main = data t on 2;\n",
        3,
    ),
    (
        "muesli 1;\nfun neg(i) = -i;\ndata t { a = matrix 4 4 grid 2 2 at 0; b = rotateRows neg a; give b; }\n",
        "muesli 1;\nfun neg(i) = -i;\ndata t {\n  a = matrix 4 4 grid 2 2 at 0;\n  b = rotateRows neg a;\n  give b;\n}\n",
        "main = data t on 2;\n",
        3,
    ),
    (
        "muesli 1;\nfun dev(s, x) = 4 * x - s;\ndata d { a = array 2; s = fold sum a; b = map dev(s) a; give b; }\n",
        "muesli 1;\nfun dev(s, x) = (4 * x) - s;\ndata d {\n  a = array 2;\n  s = fold sum a;\n  b = map dev(s) a;\n  give b;\n}\n",
        "main = farm 2 { data d on 2 };\n",
        5,
    ),
    (TRIANGLES, TRIANGLES_TEXT, "main = divcon range on 2;\n", 3),
    (KNAPSACK, KNAPSACK_TEXT, "main = bnb pick on 2;\n", 3),
    (
        KNAPSACK,
        KNAPSACK_TEXT,
        "main = farm 2 { bnb pick on 3 };\n",
        7,
    ),
    (
        KNAPSACK,
        KNAPSACK_TEXT,
        "main = farm 64 { farm 64 { farm 64 { farm 64 { bnb pick on 64 } } } };\n",
        1_073_741_825,
    ),
    (BROKEN, BROKEN_TEXT, "main = bnb bad on 1;\n", 2),
    (PAIRS, PAIRS_TEXT, "main = filter pairs;\n", 2),
    (
        DEMO,
        DEMO,
        "main = pipe { farm 2 { atomic mix }; data tot on 1 };\n",
        4,
    ),
];

fn needed(alloc: Global, pieces: &[&str]) -> Result<u64, Fail> {
    let script = read_pieces(alloc, pieces)?;
    Ok(need(&script))
}

#[test]
fn scripts_are_read(rt: HostRuntime) -> Result<(), Fail> {
    for (text, want, main, processes) in SCRIPTS {
        is_read_as(&rt, rt.alloc(), &[text, main], &[want, main])?;
        let got = needed(rt.alloc(), &[text, main])?;
        assert_eq!(rt; got, *processes, "{text}{main}");
    }
    Ok(())
}
