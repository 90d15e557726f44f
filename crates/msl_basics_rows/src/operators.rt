//! What lists fold to by each operator, and the operators' names.

use msl_base::Fault;
use msl_base::limits::GREATEST_MODULUS;
use msl_local::fold;
use msl_ops::{Op, OpKind, OpTable, op_table};
use std::process::Abort;

// An operator, lists, and what each folds to, as a stage hands it out: None where it overflows.
type Folds = &'static [(&'static [i64], Option<i64>)];

const FOLDS: &[(OpKind, Folds)] = &[
    (
        OpKind::Sum,
        &[
            (&[], Some(0)),
            (&[i64::MAX, 1, -1], Some(i64::MAX)),
            (&[i64::MIN], Some(i64::MIN)),
            (&[i64::MIN, -1], None),
            (&[i64::MAX, 1], None),
        ],
    ),
    (
        OpKind::Min,
        &[(&[], Some(9223372036854775807)), (&[3, -4, 5], Some(-4))],
    ),
    (
        OpKind::Max,
        &[(&[], Some(-9223372036854775808)), (&[3, -4, 5], Some(5))],
    ),
    (OpKind::And, &[(&[], Some(-1)), (&[12, -6], Some(8))]),
    (OpKind::Or, &[(&[], Some(0)), (&[5, -8], Some(-3))]),
    (
        OpKind::Xor,
        &[(&[], Some(0)), (&[-1, 5], Some(-6)), (&[6, 3], Some(5))],
    ),
    (
        OpKind::Gcd,
        &[
            (&[], Some(0)),
            (&[12, -18], Some(6)),
            (&[0, -7], Some(7)),
            (&[i64::MIN, 6], Some(2)),
            (&[i64::MIN], None),
        ],
    ),
];

// A modulus, and such lists.
const SUMS: &[(i64, Folds)] = &[
    (7, &[(&[-1, 3], Some(2))]),
    (GREATEST_MODULUS, &[(&[-1, -1], Some(GREATEST_MODULUS - 2))]),
];

const PRODUCTS: &[(i64, Folds)] = &[
    (1, &[(&[], Some(0)), (&[5, i64::MIN], Some(0))]),
    (10, &[(&[], Some(1)), (&[7, 8], Some(6))]),
    (
        GREATEST_MODULUS,
        &[
            (&[], Some(1)),
            (&[GREATEST_MODULUS - 1, -1], Some(1)),
            (&[i64::MIN], Some(776_627_963_145_224_192)),
        ],
    ),
];

fn folds(rt: &impl Abort, op: Op, rows: Folds) {
    for &(xs, want) in rows {
        assert!(rt; xs.len() <= 1 << 60);
        match op.settle(fold(&op, xs), 3) {
            Ok(x) => assert_eq!(rt; Some(x), want, "of {xs:?}"),
            Err(fault) => assert!(rt;
                want.is_none() && matches!(fault, Fault::Overflow(3)),
                "of {xs:?}"
            ),
        }
    }
}

#[test]
fn lists_fold(rt: HostRuntime) {
    for &(kind, rows) in FOLDS {
        folds(&rt, Op { kind, modulus: 1 }, rows);
    }
}

#[test]
fn lists_fold_modulo(rt: HostRuntime) {
    for &(modulus, rows) in SUMS {
        assert!(rt; 1 <= modulus && modulus <= GREATEST_MODULUS);
        let kind = OpKind::AddMod;
        folds(&rt, Op { kind, modulus }, rows);
    }
    for &(modulus, rows) in PRODUCTS {
        assert!(rt; 1 <= modulus && modulus <= GREATEST_MODULUS);
        let kind = OpKind::MulMod;
        folds(&rt, Op { kind, modulus }, rows);
    }
}

const NAMES: &[(&str, OpKind)] = &[
    ("sum", OpKind::Sum),
    ("min", OpKind::Min),
    ("max", OpKind::Max),
    ("and", OpKind::And),
    ("or", OpKind::Or),
    ("xor", OpKind::Xor),
    ("gcd", OpKind::Gcd),
    ("addmod", OpKind::AddMod),
    ("mulmod", OpKind::MulMod),
];

#[test]
fn operators_have_names(rt: HostRuntime) {
    let table = op_table();
    for &(name, kind) in NAMES {
        assert_eq!(rt; table.find(name), Some(kind), "of {name}");
        assert_eq!(rt; table.name(kind), name);
    }
    for name in ["", "Sum", "summ"] {
        assert_eq!(rt; table.find(name), None, "of {name}");
    }
}

#[test]
fn a_table_of_two_rows(rt: HostRuntime) {
    let table = OpTable {
        kinds: [OpKind::Gcd, OpKind::Max],
    };
    for (name, kind) in [("max", Some(OpKind::Max)), ("sum", None)] {
        assert_eq!(rt; table.find(name), kind, "of {name}");
    }
    assert_eq!(rt; table.name(OpKind::Gcd), "gcd");
}
