// Refusals by the tokens of a text and by its outer parts. Each place is marked by a `^` before the token that the refusal
// names.

use crate::answers::{FIRST, answer, are_answered};
use std::test::Fail;

// Whole texts.
const STARTS: &[&str] = &[
    "Expected: ^",
    "Expected:  \t\r\n # only a comment^",
    "Expected: ^mues",
    "Expected: ^Muesli 1;",
    "Expected: ^muesli1;",
    "Expected: ^1;",
    "Expected: ^;",
    "Expected: muesli^",
    "Expected: muesli ^;",
    "Expected: muesli ^one;",
    "Expected: muesli ^-1;",
    "Expected: muesli ^(1);",
    "Version: muesli ^0;",
    "Version: muesli ^2;",
    "Version: muesli ^10",
    "Version: muesli ^9223372036854775807",
    "Version: muesli ^00 1",
    "Expected: muesli 1^",
    "Expected: muesli 1^x;",
    "Expected: muesli 1 ^1;",
    "Expected: muesli 1 ^fun",
    "Expected: muesli 01;^",
    "Expected: muesli 1; ^;",
    "Expected: muesli 1; ^1",
    "Expected: muesli 1; ^muesli 1;",
    "Expected: muesli 1; ^atomic f;",
    "Expected: muesli 1; ^f(x) = x;",
    "Expected: muesli 1; ^Fun f(x) = x;",
    "Expected: muesli 1; fun f(x) = x; # main = atomic f; ^",
    "Expected: muesli 1; main ^;",
    "Expected: muesli 1; main ^== atomic f;",
    "Expected: muesli 1; main = ^fun",
    "Unknown: muesli 1; main = atomic ^f; fun f(x) = x;",
    "Expected: muesli 1; fun f(x) = x; main = atomic f^",
    "Expected: muesli 1; fun f(x) = x; main = atomic f ^}",
    "Expected: muesli 1; fun f(x) = x; main = atomic f; ^;",
    "Expected: muesli 1; fun f(x) = x; main = atomic f; ^fun g(x) = x;",
    "Expected: muesli 1; fun f(x) = x; main = atomic f; ^muesli 1;",
    "Expected: muesli 1; fun f(x) = x; main = atomic f; ^1",
];

// Bytes, words and numbers that are refused before all else.
const BYTES: &[&str] = &[
    "Byte: ^$",
    "Byte: ^^",
    "Byte: ^\"muesli\" 1;",
    "Byte: x y z ^.",
    "Byte: muesli 2; ^&",
    "Byte: muesli 1; fun f(x) = x ^! x;",
    "Byte: muesli 1; fun f(x) = x ^!",
    "Byte: muesli 1; fun f(x) = x !=^! x;",
    "Byte: muesli 1; fun f(x) = x ^| x;",
    "Byte: muesli 1; fun f(x) = x^'",
    "Byte: muesli 1; fun f(x^: x)",
    "Byte: muesli 1; ^@",
    "Byte: muesli 1; ^?",
    "Byte: muesli 1; ^~",
    "Byte: muesli 1; ^`",
    "Byte: muesli 1; ^\\",
    "Byte: muesli 1; ^\0",
    "Byte: muesli 1; ^\u{b}",
    "Byte: muesli 1; ^\u{c}",
    "Byte: muesli 1; ^\u{7f}",
    "Byte: muesli 1; fun gr^\u{fc}n(x) = x;",
    "Byte: ^\u{feff}muesli 1;",
    "Byte: # $ \u{e9} 9223372036854775808\n^$",
    "Byte: # a CR ends no comment \r $\n^$",
    "Expected: # a\n# b\n# c\n^",
    "Byte: ^$ 9223372036854775808",
    "Number: ^9223372036854775808 $",
    "Number: muesli ^9223372036854775808;",
    "Number: muesli ^00009223372036854775808;",
    "Number: muesli ^18446744073709551617;",
    "Number: muesli ^340282366920938463463374607431768211457;",
    "Number: muesli ^99999999999999999999999999999999999999999999999999",
    "Number: muesli 1; fun f(x) = -^9223372036854775808;",
    "Version: muesli ^9223372036854775807;",
    "Expected: muesli 1; ^x 1a",
    "Expected: ^x 9223372036854775807",
];

// The longer sign comes first.
const SIGNS: &[&str] = &[
    "Expected: fun g(x) = x ==^= x;",
    "Expected: fun g(x) = x !=^= x;",
    "Expected: fun g(x) = x <=^= x;",
    "Expected: fun g(x) = x >=^= x;",
    "Expected: fun g(x) = x ^=< x;",
    "Expected: fun g(x) = x <^> x;",
    "Expected: fun g(x) = x <^< x;",
    "Expected: fun g(x) ^== x;",
    "Expected: fun g(x) = x *^* x;",
    "Expected: fun g(x) = ^+x;",
    "Expected: fun g(x) = x ^1;",
    "Expected: fun g(x) = 1^x;",
];

const REFUSED: &[(&str, &[&str])] = &[("", STARTS), ("", BYTES), (FIRST, SIGNS)];

#[test]
fn tokens_are_refused(rt: HostRuntime) -> Result<(), Fail> {
    for (head, rows) in REFUSED {
        are_answered(&rt, rt.alloc(), &[head], rows)?;
    }
    Ok(())
}

// Texts with bytes beyond ASCII.
const NO_TEXT: &[(&[u8], &str)] = &[
    (b"muesli 1;\n\xff", "Byte at 10"),
    (b"muesli 1;\n\x80 $", "Byte at 10"),
    (
        b"muesli 1; # \xff\x80\0\x0b\nfun f(x) = x; main = atomic f; # \xc3",
        "read",
    ),
];

#[test]
fn bytes_are_no_text(rt: HostRuntime) -> Result<(), Fail> {
    for (text, want) in NO_TEXT {
        assert_eq!(rt; answer(rt.alloc(), text)?.as_str(), *want);
    }
    Ok(())
}
