// What the parts of a script are read as. Each stands as the canonical text of what was read, which names each function,
// line and variable that is meant.

use crate::answers::{FUNS, is_read_as};
use std::test::Fail;

// Bodies of functions of x and y behind `f11` and its kin, with their canonical texts.
const BODIES: &[&str] = &[
    "0 => 0",
    "00000000000000000000007 => 7",
    "9223372036854775807 => 9223372036854775807",
    "x => x",
    "((y)) => y",
    "[y] => y",
    "[y, (x), -1] => [y, x, -1]",
    "-x => -x",
    "--x => -(-x)",
    "not -not y => not (-(not y))",
    "x + y => x + y",
    "x - y => x - y",
    "x * y => x * y",
    "x / y => x / y",
    "x % y => x % y",
    "x == y => x == y",
    "x != y => x != y",
    "x < y => x < y",
    "x <= y => x <= y",
    "x > y => x > y",
    "x >= y => x >= y",
    "x and y => x and y",
    "x or y => x or y",
    "min(x, y) => min(x, y)",
    "max(x, y) => max(x, y)",
    "x<y => x < y",
    "x#$\n+\r\n\ty # ; => x + y",
    "x - y - 1 => (x - y) - 1",
    "x - (y - 1) => x - (y - 1)",
    "x / y % 2 * 3 => ((x / y) % 2) * 3",
    "x + y * 2 => x + (y * 2)",
    "(x + y) * 2 => (x + y) * 2",
    "x - -y => x - (-y)",
    "-x * y => (-x) * y",
    "not x == y => (not x) == y",
    "x and y and 1 => (x and y) and 1",
    "x or y or 1 => (x or y) or 1",
    "x or y and 1 => x or (y and 1)",
    "x and y or 1 => (x and y) or 1",
    "x < y + 1 and y == 2 * x => (x < (y + 1)) and (y == (2 * x))",
    "if x then y else 1 => if x then y else 1",
    "if x then if y then 1 else 2 else 3 + 4 => if x then if y then 1 else 2 else 3 + 4",
    "let z = x in z - y => let z = x in z - y",
    "let z = let w = x in w in z => let z = let w = x in w in z",
    "let z = 1 in let w = 2 in z + w => let z = 1 in let w = 2 in z + w",
    "[let z = 1 in z, let z = 2 in y] => [let z = 1 in z, let z = 2 in y]",
    "loop i below x, a = y in a - i => loop i below x, a = y in a - i",
    "loop i below loop j below x, b = 0 in b, a = let w = 1 in w in a + i => loop i below loop j below x, b = 0 in b, a = let w = 1 in w in a + i",
    "1 + (if x then 2 else 3) => 1 + (if x then 2 else 3)",
    "1 + (loop i below x, a = 0 in let c = i in a + c) => 1 + (loop i below x, a = 0 in let c = i in a + c)",
    "f11(x) => f11(x)",
    "f21(y, f31(x, y, 1) + 1) => f21(y, f31(x, y, 1) + 1)",
    "-f11(if x then y else 1) => -f11(if x then y else 1)",
    "let f11 = y in f11(f11) => let f11 = y in f11(f11)",
    "min(let z = x in z, max(1, y)) => min(let z = x in z, max(1, y))",
];

#[test]
fn bodies_are_read(rt: HostRuntime) -> Result<(), Fail> {
    for row in BODIES {
        let (body, want) = row.split_once(" => ").ok_or("no text")?;
        is_read_as(
            &rt,
            rt.alloc(),
            &[FUNS, "fun e(x, y) = ", body, "\n;main = atomic e;"],
            &[FUNS, "fun e(x, y) = ", want, ";\nmain = atomic e;\n"],
        )?;
    }
    Ok(())
}

// Each step, and its canonical text.
const STEPS: &str = "data d {l0=array 3;
l1=array 003 at 2 len 6;
l2=matrix 4 6 grid 2 3 at 1;
l3=matrix 4 6 grid 2 3 at 05;
l4=fold sum l0;
l5=fold min l1;
l6=fold max l2;
l7=fold and l3;
l8=fold or l0;
l9=fold xor l0;
l10=fold gcd l0;
l11=fold addmod 007 l0;
l12=fold mulmod 1000000000000000000 l2;
l13=scan sum l0;
l14=scan min l13;
l15=scan max l0;
l16=scan and l0;
l17=scan or l0;
l18=scan xor l0;
l19=scan gcd l0;
l20=scan addmod 1 l0;
l21=scan mulmod 2 l1;
l22=map f11 l0;
l23=map f31(l4, -5) l2;
l24=mapIndex f21 l1;
l25=mapIndex f31 l3;
l26=mapIndex f41(- 0) l2;
l27=zip f21 l0 l1;
l28=zip f41(9223372036854775807, l12) l3 l2;
l29=zipIndex f31 l1 l0;
l30=zipIndex f41 l2 l3;
l31=foldl f21 007 l0;
l32=foldl f21 -9223372036854775807 l1;
l33=foldl f31(l31) l4 l0;
l34=permutePartition f11 l0;
l35=permute f21(1) l34;
l36=broadcastPartition 02 l35;
l37=rotateRows f11 l2;
l38=rotateCols f21(l4) l37;
l39=transpose l38;
l40=matrix 6 4 grid 3 2 at 0;
l41=zip f21 l39 l40;
l42=map w16(1, 2, 3, 4, 5, 6, 7, 8, 9, 10, 11, 12, 13, 14, -15) l36;
give l33; } main = data d on 1;";

const STEPS_TEXT: &str = "data d {
  l0 = array 3;
  l1 = array 3 at 2 len 6;
  l2 = matrix 4 6 grid 2 3 at 1;
  l3 = matrix 4 6 grid 2 3 at 5;
  l4 = fold sum l0;
  l5 = fold min l1;
  l6 = fold max l2;
  l7 = fold and l3;
  l8 = fold or l0;
  l9 = fold xor l0;
  l10 = fold gcd l0;
  l11 = fold addmod 7 l0;
  l12 = fold mulmod 1000000000000000000 l2;
  l13 = scan sum l0;
  l14 = scan min l13;
  l15 = scan max l0;
  l16 = scan and l0;
  l17 = scan or l0;
  l18 = scan xor l0;
  l19 = scan gcd l0;
  l20 = scan addmod 1 l0;
  l21 = scan mulmod 2 l1;
  l22 = map f11 l0;
  l23 = map f31(l4, -5) l2;
  l24 = mapIndex f21 l1;
  l25 = mapIndex f31 l3;
  l26 = mapIndex f41(0) l2;
  l27 = zip f21 l0 l1;
  l28 = zip f41(9223372036854775807, l12) l3 l2;
  l29 = zipIndex f31 l1 l0;
  l30 = zipIndex f41 l2 l3;
  l31 = foldl f21 7 l0;
  l32 = foldl f21 -9223372036854775807 l1;
  l33 = foldl f31(l31) l4 l0;
  l34 = permutePartition f11 l0;
  l35 = permute f21(1) l34;
  l36 = broadcastPartition 2 l35;
  l37 = rotateRows f11 l2;
  l38 = rotateCols f21(l4) l37;
  l39 = transpose l38;
  l40 = matrix 6 4 grid 3 2 at 0;
  l41 = zip f21 l39 l40;
  l42 = map w16(1, 2, 3, 4, 5, 6, 7, 8, 9, 10, 11, 12, 13, 14, -15) l36;
  give l33;
}
main = data d on 1;
";

// Items in turns, behind `f11` and its kin.
const ITEMS: &str = "fun l3(a, b, c) = [c];
data one { a = array 2; b = array 2; give b; }
filter keep { state -9223372036854775807, 007; count f31; item f42; next f32; flush f21; last l3; }
fun b1(a, b) = 1; fun b2(a, b) = 2; fun b3(a, b) = 3; fun b4(a, b) = 4;
divcon cut { parts 002; cutoff 064; simple f21; solve f22; divide f32; combine f42; }
bnb pick { bound b4; solved b1; value b3; count b2; branch f32; }
data two { a = array 1; give a; }
fun end(x) = x; # the last
main = pipe {
  atomic end; filter keep; data two on 1; data one on 64; divcon cut on 2; bnb pick on 03;
  farm 64 { pipe { atomic f42; farm 2 { data one on 5 } } };
  farm 1 { divcon cut on 6 }
};
";

const ITEMS_TEXT: &str = "fun l3(a, b, c) = c;
data one {
  a = array 2;
  b = array 2;
  give b;
}
filter keep {
  state -9223372036854775807, 7;
  count f31;
  item f42;
  next f32;
  flush f21;
  last l3;
}
fun b1(a, b) = 1;
fun b2(a, b) = 2;
fun b3(a, b) = 3;
fun b4(a, b) = 4;
divcon cut {
  parts 2;
  cutoff 64;
  simple f21;
  solve f22;
  divide f32;
  combine f42;
}
bnb pick {
  bound b4;
  solved b1;
  value b3;
  count b2;
  branch f32;
}
data two {
  a = array 1;
  give a;
}
fun end(x) = x;
main = pipe { atomic end; filter keep; data two on 1; data one on 64; divcon cut on 2; bnb pick on 3; farm 64 { pipe { atomic f42; farm 2 { data one on 5 } } }; farm 1 { divcon cut on 6 } };
";

// Texts behind `f11` and its kin, with their canonical texts.
const PARTS: &[(&str, &str)] = &[(STEPS, STEPS_TEXT), (ITEMS, ITEMS_TEXT)];

#[test]
fn parts_are_read(rt: HostRuntime) -> Result<(), Fail> {
    for (text, want) in PARTS {
        is_read_as(&rt, rt.alloc(), &[FUNS, text], &[FUNS, want])?;
    }
    Ok(())
}
