// Texts of the greatest length.

use crate::answers::answer;
use std::alloc::{AllocError, Global};
use std::test::Fail;

// A head, the byte that fills it up, a tail, and the answer.
const LONGEST: &[(&str, &str, &str, &str)] = &[
    (
        "muesli 1;\nfun f(x) = x;\nmain = atomic f;\n#",
        "$",
        "",
        "read",
    ),
    (
        "muesli ",
        "0",
        "1;\nfun f(x) = x;\nmain = atomic f;\n",
        "read",
    ),
    (
        "muesli 1;",
        "\n",
        "fun f(x) = x;\nmain = atomic f;\n",
        "read",
    ),
    ("muesli 1;\n#", "$", "", "Expected at 1048576"),
    ("muesli 1;\n", " ", "?", "Byte at 1048575"),
    ("muesli ", "9", ";", "Number at 7"),
    ("muesli ", "m", ";", "LongName at 7"),
    ("muesli 1; fun f(x) = ", "(", "", "Deep at 149"),
    ("muesli 1; main = ", ";", "", "Expected at 17"),
];

fn filled(alloc: Global, head: &str, fill: &str, tail: &str) -> Result<String, AllocError> {
    let mut text = String::from_str(alloc, head)?;
    for _ in 0..1 << 20 {
        if text.len() + tail.len() < 1 << 20 {
            text.push_str(fill)?;
        }
    }
    text.push_str(tail)?;
    Ok(text)
}

#[test]
fn longest_texts_are_read(rt: HostRuntime) -> Result<(), Fail> {
    for (head, fill, tail, want) in LONGEST {
        let text = filled(rt.alloc(), head, fill, tail)?;
        let got = answer(rt.alloc(), text.as_bytes())?;
        assert_eq!(rt; (text.len(), got.as_str()), (1 << 20, *want), "{head}");
    }
    Ok(())
}
