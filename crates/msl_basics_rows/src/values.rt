//! Names, records, lists, paths and blocks.

ghost use Rattle.std.specs.Prelude.{◌≤◌, IfSome};
ghost use Rattle.msl_base.specs.Codes.{AreFields};
ghost use Rattle.msl_base.specs.declared.limits.TheConstants.{MOST_STEP_BITS};

use msl_base::{ListOf, Name, Path, Rec, Small, bounds};
use std::test::Fail;

#[test]
fn names_and_lists_are_kept(rt: HostRuntime) -> Result<(), Fail> {
    let name = Name::of(rt.alloc(), "sq")?;
    assert_eq!(rt; name.as_str(), "sq");
    let mut list = ListOf::from_vec(vec![in rt.alloc(); 7u64]?);
    list.add(8)?;
    assert_eq!(rt; list.as_slice(), [7, 8].as_slice());
    assert_eq!(rt; list.into_vec().len(), 2);
    Ok(())
}

#[test]
fn records_are_kept(rt: HostRuntime) -> Result<(), Fail> {
    let mut rec = Rec::of_slice(rt.alloc(), &[3, -4])?;
    rec.push(5)?;
    rec.reserve(2)?;
    rec.put(i64::MIN);
    assert_eq!(rt; rec.as_slice(), [3, -4, 5, i64::MIN].as_slice());
    rec.clear();
    assert_eq!(rt; rec.as_slice(), [].as_slice());
    Ok(())
}

// A path takes 64 steps, and no more.
#[test]
fn a_path_ends_at_64_steps(rt: HostRuntime) {
    let mut path = Path::root();
    for step in 0..64u8 {
        match path.push(step) {
            Some(longer) => path = longer,
            None => assert!(rt; false, "step {step}"),
        }
    }
    assert_eq!(rt; path.as_slice().len(), 64);
    assert!(rt; path.push(0).is_none());
}

#[test]
fn a_small_is_its_list(rt: HostRuntime) {
    for numbers in [[].as_slice(), [1, -2, 3].as_slice()] {
        assert!(rt; numbers.len() <= 16);
        assert_eq!(rt; Small::of(numbers).as_slice(), numbers);
    }
}

// The steps of a path, the bits of a field, and the code.
const CODES: &[(&[u8], u32, Option<u64>)] = &[
    (&[], 1, Some(1)),
    (&[], 6, Some(1)),
    (&[2], 2, Some(6)),
    (&[1, 0, 3], 2, Some(83)),
    (&[63; 9], 6, Some((1 << 55) - 1)),
    (&[63; 10], 6, None),
    (&[0; 56], 1, Some(1 << 56)),
    (&[0; 57], 1, None),
];

#[test]
fn paths_have_codes(rt: HostRuntime) {
    for &(steps, bits, want) in CODES {
        assert!(rt; 1 <= bits && bits <= 6);
        match path_of(steps, bits) {
            Some(path) => {
                assert_eq!(rt; path.code(bits), want, "{steps:?} with {bits} bits");
            }
            None => assert!(rt; false, "{steps:?} with {bits} bits"),
        }
        if let Some(code) = want {
            match Path::of_code(code, bits) {
                Some(path) => assert_eq!(rt; path.as_slice(), steps),
                None => assert!(rt; false, "{code} with {bits} bits"),
            }
        }
    }
}

// The path of these steps, if each has a field.
fn path_of(steps: &[u8], bits: u32) -> Option<Path>
    requires { bits ≤ MOST_STEP_BITS }
    ensures { IfSome result (λ path. AreFields bits path) }
{
    let mut path = Path::root();
    for &step in steps {
        if step >= 1 << bits {
            return None;
        }
        path = path.push(step)?;
    }
    Some(path)
}

// Numbers that are no path's code, and the bits of a field.
const NO_CODES: &[(u64, u32)] = &[
    (0, 1),
    (0, 2),
    (2, 2),
    (3, 2),
    (8, 2),
    (32, 6),
    (1 << 55, 6),
    (1 << 57, 1),
    (u64::MAX, 6),
];

#[test]
fn other_numbers_are_no_codes(rt: HostRuntime) {
    for &(code, bits) in NO_CODES {
        assert!(rt; 1 <= bits && bits <= 6);
        assert!(rt;
            Path::of_code(code, bits).is_none(),
            "{code} with {bits} bits"
        );
    }
}

// How many elements, in how many blocks, and where some of the blocks begin.
const BLOCKS: &[(u64, u64, &[(u64, u64)])] = &[
    (10, 3, &[(0, 0), (1, 4), (2, 7), (3, 10)]),
    (2, 3, &[(0, 0), (1, 1), (2, 2), (3, 2)]),
    (0, 3, &[(0, 0), (1, 0), (2, 0), (3, 0)]),
    (5, 1, &[(0, 0), (1, 5)]),
    (
        1_000_000,
        1_024,
        &[
            (0, 0),
            (1, 977),
            (576, 562_752),
            (577, 563_728),
            (1_023, 999_024),
            (1_024, 1_000_000),
        ],
    ),
    (
        u64::MAX,
        1_024,
        &[(0, 0), (1, 18_014_398_509_481_984), (1_024, u64::MAX)],
    ),
];

#[test]
fn blocks_begin(rt: HostRuntime) {
    for &(n, b, rows) in BLOCKS {
        assert!(rt; 0 < b && b <= 1_024);
        for &(j, want) in rows {
            assert!(rt; j <= b);
            assert_eq!(rt; bounds(n, b, j), want, "block {j} of {n} elements in {b}");
        }
    }
}
