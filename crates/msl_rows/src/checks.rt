//! What `check` writes.

use msl_fixture::{CHECK, is_checked, is_refused};
use std::test::Fail;

// Scripts, and what is written of them.
const CHECKED: &[(&str, &str)] = &[
    // Comments go, and blanks are those of the canonical text.
    (
        "muesli 1; fun sq(x)=x*x; # square\nmain=atomic sq;",
        "muesli 1;\nfun sq(x) = x * x;\nmain = atomic sq;\n# need 2\n",
    ),
    // Leading zeros go, and parentheses stand around operands of operators alone.
    (
        "muesli 01;fun f(x)=((x+007)*(3))-(-(x));fun g(x)=[if(x)then(x+1)else(2),f((x*x)),min((x),(1+2)),not(not x)];main=atomic g;",
        "muesli 1;\nfun f(x) = ((x + 7) * 3) - (-x);\nfun g(x) = [if x then x + 1 else 2, f(x * x), min(x, 1 + 2), not (not x)];\nmain = atomic g;\n# need 2\n",
    ),
    // A need for each worker of a farm, and the sum of a pipe's.
    (
        "muesli 1;fun f(x)=x;data d{a=array 1 at 0 len 3;give a;}main=pipe{farm 2{pipe{atomic f;data d on 3}};atomic f};",
        "muesli 1;\nfun f(x) = x;\ndata d {\n  a = array 1 at 0 len 3;\n  give a;\n}\nmain = pipe { farm 2 { pipe { atomic f; data d on 3 } }; atomic f };\n# need 10\n",
    ),
    // Each step, with and without arguments.
    (
        "muesli 1; fun i(a)=a; fun j(a,b)=a; fun k(a,b,c)=a; fun l(a,b,c,d)=a; data d { a=array 2; b=map j(-3) a; c=mapIndex j a; e=zip k(1) a b; f=zipIndex k a b; s=fold addmod 7 a; t=scan mulmod 9 a; u=foldl j s a; v=permutePartition i a; w=permute j(s) a; x=broadcastPartition 1 a; m=matrix 2 3 grid 1 1 at 4; n=rotateRows i m; o=rotateCols i m; p=transpose m; q=zipIndex l m n; r=mapIndex k m; give r; } main = data d on 1;",
        "muesli 1;\nfun i(a) = a;\nfun j(a, b) = a;\nfun k(a, b, c) = a;\nfun l(a, b, c, d) = a;\ndata d {\n  a = array 2;\n  b = map j(-3) a;\n  c = mapIndex j a;\n  e = zip k(1) a b;\n  f = zipIndex k a b;\n  s = fold addmod 7 a;\n  t = scan mulmod 9 a;\n  u = foldl j s a;\n  v = permutePartition i a;\n  w = permute j(s) a;\n  x = broadcastPartition 1 a;\n  m = matrix 2 3 grid 1 1 at 4;\n  n = rotateRows i m;\n  o = rotateCols i m;\n  p = transpose m;\n  q = zipIndex l m n;\n  r = mapIndex k m;\n  give r;\n}\nmain = data d on 1;\n# need 2\n",
    ),
];

#[test]
fn scripts_are_checked(rt: HostRuntime) -> Result<(), Fail> {
    for (script, out) in CHECKED {
        is_checked(&rt, rt.alloc(), script, out)?;
    }
    Ok(())
}

// A refused script is refused as by `seq`.
#[test]
fn a_script_is_refused(rt: HostRuntime) -> Result<(), Fail> {
    let text = "muesli 1;\nmain = atomic ^sr;\n";
    is_refused(&rt, rt.alloc(), CHECK, "", text, "unknown")
}
