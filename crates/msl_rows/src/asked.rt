//! Which files a run asks for.

use crate::rows::NO_COMMANDS;
use msl_fixture::{CHECK, ROUNDS, SEQ, SQUARE, UNREAD, WORKING, run};
use std::test::Fail;

const UNBUILT: &str =
    "muesli 1; fun f(x) = x; fun g(x, j) = x; divcon d { parts 2; cutoff 0; simple f; solve f; divide g; combine g; } main = divcon d on 2;";

// Commands and scripts: one that runs, one that is refused and one that isn't built.
const COMMANDS: &[(&[&str], &str)] = &[
    (SEQ, SQUARE),
    (ROUNDS, SQUARE),
    (CHECK, SQUARE),
    (SEQ, "muesli 2;"),
    (ROUNDS, "muesli 2;"),
    (CHECK, "muesli 2;"),
    (SEQ, UNBUILT),
    (ROUNDS, UNBUILT),
    (&["rounds", "-p", "1", "script"], SQUARE),
    (&["check", "-p", "1", "script"], SQUARE),
];

#[test]
fn a_command_asks_for_its_file_once(rt: HostRuntime) -> Result<(), Fail> {
    for &(words, script) in COMMANDS {
        let left = run(&rt, rt.alloc(), words, script, UNREAD, &WORKING)?;
        assert_eq!(rt; left.lib.asked().len(), 1, "{words:?}");
        for name in left.lib.asked() {
            assert_eq!(rt; name.as_str(), "script", "{words:?}");
        }
    }
    Ok(())
}

#[test]
fn other_words_ask_for_nothing(rt: HostRuntime) -> Result<(), Fail> {
    for &words in NO_COMMANDS {
        let left = run(&rt, rt.alloc(), words, SQUARE, UNREAD, &WORKING)?;
        assert!(rt; left.lib.asked().is_empty(), "{words:?}");
    }
    Ok(())
}

#[test]
fn the_demonstration_asks_for_nothing(rt: HostRuntime) -> Result<(), Fail> {
    for words in [&["demo", "2"], &["demo", "0"]] {
        let left = run(&rt, rt.alloc(), words, SQUARE, UNREAD, &WORKING)?;
        assert!(rt; left.lib.asked().is_empty(), "{words:?}");
    }
    Ok(())
}
