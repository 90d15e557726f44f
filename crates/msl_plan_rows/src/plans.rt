// Scripts with the processes that there are, and what is planned for them.

use msl_base::limits::MOST_MEMBERS;
use msl_script::{Script, plan, read_script};
use std::alloc::Global;
use std::fmt::Write;
use std::test::Fail;

// What stands before each main stage.
const ITEMS: &str = "muesli 1;
fun f(a) = a;
fun two(a, b) = a;
fun pair(a, b, c) = [a, b];
fun three(a, b, c) = a;
fun four(a, b, c, d) = a;
data d { a = array 3; give a; }
filter same { state 0, 0; count three; item four; next pair; flush two; last three; }
divcon range { parts 2; cutoff 3; simple two; solve two; divide pair; combine two; }
bnb pick { bound f; solved f; value f; count f; branch two; }
main = ";

// A main stage, how many processes there are, and the teams, each as its stage, its first member and how many members
// it has; or how many processes are needed.
const ROWS: &[(&str, u32, &str)] = &[
    ("atomic f", 2, "1 1 1, "),
    ("atomic f", 64, "1 1 1, "),
    ("atomic f", 1, "need 2 processes, have 1"),
    ("filter same", 2, "1 1 1, "),
    ("filter same", 1, "need 2 processes, have 1"),
    ("data d on 1", 2, "1 1 1, "),
    ("data d on 63", 64, "1 1 63, "),
    ("data d on 64", 64, "need 65 processes, have 64"),
    ("divcon range on 5", 6, "1 1 5, "),
    ("bnb pick on 5", 5, "need 6 processes, have 5"),
    ("farm 1 { atomic f }", 2, "1 1 1, "),
    ("farm 2 { divcon range on 3 }", 7, "1 1 3, 1 4 3, "),
    ("farm 2 { bnb pick on 3 }", 7, "1 1 3, 1 4 3, "),
    ("farm 2 { bnb pick on 3 }", 6, "need 7 processes, have 6"),
    (
        "pipe { atomic f; farm 2 { atomic f }; data d on 2 }",
        6,
        "1 1 1, 2 2 1, 2 3 1, 3 4 2, ",
    ),
    (
        "pipe { atomic f; farm 2 { atomic f }; data d on 2 }",
        2,
        "need 6 processes, have 2",
    ),
    (
        "farm 2 { pipe { atomic f; data d on 2 } }",
        7,
        "1 1 1, 2 2 2, 1 4 1, 2 5 2, ",
    ),
    (
        "farm 2 { farm 2 { atomic f } }",
        5,
        "1 1 1, 1 2 1, 1 3 1, 1 4 1, ",
    ),
    (
        "farm 2 { farm 2 { atomic f } }",
        64,
        "1 1 1, 1 2 1, 1 3 1, 1 4 1, ",
    ),
    (
        "pipe { filter same; farm 2 { pipe { pipe { atomic f; atomic f } ; divcon range on 2 } }; pipe { bnb pick on 3 }; filter same }",
        14,
        "1 1 1, 2 2 1, 3 3 1, 4 4 2, 2 6 1, 3 7 1, 4 8 2, 5 10 3, 6 13 1, ",
    ),
    ("farm 64 { atomic f }", 64, "need 65 processes, have 64"),
    (
        "farm 64 { data d on 64 }",
        64,
        "need 4097 processes, have 64",
    ),
    (
        "farm 64 { farm 64 { farm 64 { farm 64 { bnb pick on 64 } } } }",
        64,
        "need 1073741825 processes, have 64",
    ),
];

fn read(alloc: Global, main: &str) -> Result<Script, Fail> {
    let mut text = String::from_str(alloc, ITEMS)?;
    text.push_str(main)?;
    text.push_str(";")?;
    let bytes = text.as_bytes();
    if bytes.len() > 1 << 20 {
        return Err("a long text")?;
    }
    Ok(read_script(alloc, bytes)?)
}

fn planned(alloc: Global, script: &Script, processes: u32) -> Result<String, Fail> {
    if processes < 1 || processes > MOST_MEMBERS {
        return Err("no such group")?;
    }
    let teams = match plan(alloc, script, processes) {
        Ok(teams) => teams,
        Err(fault) => return Ok(format!(in alloc; "{fault}")?),
    };
    let mut text = String::new(alloc);
    for team in teams.as_slice() {
        write!(text, "{} {} {}, ", team.stage, team.first, team.count)?;
    }
    Ok(text)
}

#[test]
fn scripts_are_planned(rt: HostRuntime) -> Result<(), Fail> {
    for (main, processes, want) in ROWS {
        let script = read(rt.alloc(), main)?;
        let got = planned(rt.alloc(), &script, *processes)?;
        assert_eq!(rt; got.as_str(), *want, "{main} with {processes}");
    }
    Ok(())
}
