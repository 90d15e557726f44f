// The rows of the operator table. A row has the operator, its name, and at a modulus m its unit, the number that an x
// is lifted to, and what a and b of its domain combine to.
//
// All that the code does by an operator is written from here: one more row is one more line.
// `rows!(column!(..))` writes `column!` with what it is given and all rows, of which it makes one thing.
macro_rules! rows {
    ($column:ident!($($given:tt)*)) => {
        $column! {
            [$($given)*]
            Sum, "sum", |m| 0, |m, x| i128::from(x), |m, a, b| a + b;
            Min, "min", |m| i128::from(i64::MAX), |m, x| i128::from(x), |m, a, b| a.min(b);
            Max, "max", |m| i128::from(i64::MIN), |m, x| i128::from(x), |m, a, b| a.max(b);
            And, "and", |m| -1, |m, x| i128::from(x), |m, a, b| i128::from(a as i64 & b as i64);
            Or, "or", |m| 0, |m, x| i128::from(x), |m, a, b| i128::from(a as i64 | b as i64);
            Xor, "xor", |m| 0, |m, x| i128::from(x), |m, a, b| i128::from(a as i64 ^ b as i64);
            Gcd, "gcd", |m| 0, |m, x| i128::from(x.unsigned_abs()), |m, a, b| i128::from(gcd(a as u64, b as u64));
            AddMod, "addmod", |m| 0, |m, x| modulo(i128::from(x), m), |m, a, b| sum_modulo(a, b, m);
            MulMod, "mulmod", |m| modulo(1, m), |m, x| modulo(i128::from(x), m), |m, a, b| product_modulo(a, b, m);
        }
    };
}

// All operators, in the order of their rows.
macro_rules! kinds {
    ([] $($kind:ident, $name:literal, |$um:ident| $unit:expr, |$lm:ident, $lx:ident| $lift:expr, |$cm:ident, $ca:ident, $cb:ident| $combine:expr;)*) => {
        [$(OpKind::$kind),*]
    };
}

// The name of an operator.
macro_rules! name {
    ([$of:expr] $($kind:ident, $name:literal, |$um:ident| $unit:expr, |$lm:ident, $lx:ident| $lift:expr, |$cm:ident, $ca:ident, $cb:ident| $combine:expr;)*) => {
        match $of {
            $(OpKind::$kind => $name,)*
        }
    };
}

// The unit of an operator with a modulus.
macro_rules! unit {
    ([$of:expr] $($kind:ident, $name:literal, |$um:ident| $unit:expr, |$lm:ident, $lx:ident| $lift:expr, |$cm:ident, $ca:ident, $cb:ident| $combine:expr;)*) => {
        match $of.kind {
            $(OpKind::$kind => {
                let $um = i128::from($of.modulus);
                $unit
            })*
        }
    };
}

// What an operator lifts a number to.
macro_rules! lift {
    ([$of:expr, $x:expr] $($kind:ident, $name:literal, |$um:ident| $unit:expr, |$lm:ident, $lx:ident| $lift:expr, |$cm:ident, $ca:ident, $cb:ident| $combine:expr;)*) => {
        match $of.kind {
            $(OpKind::$kind => {
                let $lm = i128::from($of.modulus);
                let $lx = $x;
                $lift
            })*
        }
    };
}

// What two numbers combine to.
macro_rules! combine {
    ([$of:expr, $a:expr, $b:expr] $($kind:ident, $name:literal, |$um:ident| $unit:expr, |$lm:ident, $lx:ident| $lift:expr, |$cm:ident, $ca:ident, $cb:ident| $combine:expr;)*) => {
        match $of.kind {
            $(OpKind::$kind => {
                let $cm = i128::from($of.modulus);
                let $ca = $a;
                let $cb = $b;
                $combine
            })*
        }
    };
}

pub(crate) use combine;
pub(crate) use kinds;
pub(crate) use lift;
pub(crate) use name;
pub(crate) use rows;
pub(crate) use unit;
