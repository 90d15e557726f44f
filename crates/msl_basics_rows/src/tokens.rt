//! The tokens of texts, and the faults of texts that have none.

use msl_lex::TokenKind::{Close, Number, Sign, Word};
use msl_lex::{LexFault, TokenKind, lex};
use std::alloc::Global;
use std::process::Abort;
use std::test::Fail;

type Places = &'static [(TokenKind, u32, u32)];

const TOKENS: &[(&[u8], Places)] = &[
    (b"", &[(Close, 0, 0)]),
    (
        b"ab<= 012#x",
        &[(Word, 0, 2), (Sign, 2, 4), (Number, 5, 8), (Close, 10, 10)],
    ),
    (b"a\r\nb\t", &[(Word, 0, 1), (Word, 3, 4), (Close, 5, 5)]),
    (
        b"!=<==!=",
        &[
            (Sign, 0, 2),
            (Sign, 2, 4),
            (Sign, 4, 5),
            (Sign, 5, 7),
            (Close, 7, 7),
        ],
    ),
    (
        b"12ab_3 _",
        &[(Number, 0, 2), (Word, 2, 6), (Word, 7, 8), (Close, 8, 8)],
    ),
    (b"#\x00\xff!\n;#", &[(Sign, 5, 6), (Close, 7, 7)]),
    (
        b"0009223372036854775807",
        &[(Number, 0, 22), (Close, 22, 22)],
    ),
    (
        b"fun sq(x) = x * x;\n",
        &[
            (Word, 0, 3),
            (Word, 4, 6),
            (Sign, 6, 7),
            (Word, 7, 8),
            (Sign, 8, 9),
            (Sign, 10, 11),
            (Word, 12, 13),
            (Sign, 14, 15),
            (Word, 16, 17),
            (Sign, 17, 18),
            (Close, 19, 19),
        ],
    ),
];

fn has_tokens(rt: &impl Abort, alloc: Global, text: &[u8], want: &[(TokenKind, u32, u32)]) {
    assert!(rt; text.len() <= 1 << 20);
    match lex(alloc, text) {
        Ok(tokens) => {
            assert_eq!(rt; tokens.as_slice().len(), want.len(), "in {text:?}");
            for (token, row) in tokens.as_slice().iter().zip(want) {
                assert_eq!(rt; (token.kind, token.from, token.to), *row, "in {text:?}");
            }
        }
        Err(fault) => assert!(rt; false, "{fault} in {text:?}"),
    }
}

#[test]
fn tokens_by_kind_and_place(rt: HostRuntime) {
    for &(text, want) in TOKENS {
        has_tokens(&rt, rt.alloc(), text, want);
    }
    for text in [b"==", b"!=", b"<=", b">="] {
        has_tokens(&rt, rt.alloc(), text, &[(Sign, 0, 2), (Close, 2, 2)]);
    }
    for &sign in b"<>=+-*/%()[]{},;" {
        let text = [sign, b' '];
        has_tokens(&rt, rt.alloc(), &text, &[(Sign, 0, 1), (Close, 2, 2)]);
    }
}

const FAULTS: &[(&[u8], LexFault)] = &[
    (b"a?b", LexFault::Byte(1)),
    (b"a ! = $", LexFault::Byte(2)),
    (b"# \n\x00", LexFault::Byte(3)),
    (b"x\xc3\xa4", LexFault::Byte(1)),
    (b"9223372036854775808", LexFault::Number(0)),
    (b"x 0009223372036854775808 ?", LexFault::Number(2)),
    (
        b"99999999999999999999999999999999999999999999",
        LexFault::Number(0),
    ),
];

fn has_fault(rt: &impl Abort, alloc: Global, text: &[u8], want: &LexFault) {
    assert!(rt; text.len() <= 1 << 20);
    match lex(alloc, text) {
        Ok(_) => assert!(rt; false, "tokens in {text:?}"),
        Err(fault) => assert_eq!(rt; &fault, want, "in {text:?}"),
    }
}

#[test]
fn first_faults(rt: HostRuntime) {
    for (text, want) in FAULTS {
        has_fault(&rt, rt.alloc(), text, want);
    }
}

#[test]
fn longest_names(rt: HostRuntime) {
    let mut text = [b'a'; 67];
    has_tokens(
        &rt,
        rt.alloc(),
        &text[..64],
        &[(Word, 0, 64), (Close, 64, 64)],
    );
    has_fault(&rt, rt.alloc(), &text[..65], &LexFault::LongName(0));
    text[1] = b' ';
    has_fault(&rt, rt.alloc(), &text, &LexFault::LongName(2));
}

#[test]
fn faults_in_words(rt: HostRuntime) -> Result<(), Fail> {
    let text = format!(in rt.alloc(); "{}; {}", LexFault::Byte(7), LexFault::NoMemory)?;
    assert_eq!(rt;
        text.as_str(),
        "a byte that begins no token, at 7; out of memory"
    );
    Ok(())
}
