//! Sums, cuts and tests of rows.

use crate::made::{Plain, parts, row};
use lin_rows::{
    LIMIT, Row, RowEnd, combine, divisor, is_canonical, is_contradiction, is_cut, is_sum,
    is_within, tighten,
};
use std::alloc::Global;
use std::test::Fail;

/// 2^60.
const MOST: i128 = 1152921504606846976;

/// A row, and how often it is taken.
type Taken = (Plain<'static>, i128);

/// The sum of multiples of two rows, or none where it is Wide: `x <= -1` and `-x <= 0`; a cancelled variable between
/// others; the limit, from both sides; one past it, in a coefficient and in the bound; products far beyond it that cancel.
const SUMS: [(Taken, Taken, Option<Plain<'static>>); 9] = [
    (((&[(0, 1)], -1), 1), ((&[(0, -1)], 0), 1), Some((&[], -1))),
    (
        ((&[(0, 2), (1, -1), (4, 3)], 3), 1),
        ((&[(0, -1), (1, 3), (7, 1)], 4), 2),
        Some((&[(1, 5), (4, 3), (7, 2)], 11)),
    ),
    (
        ((&[(2, 1)], 0), 3),
        ((&[(1, 1)], 1), 1),
        Some((&[(1, 1), (2, 3)], 1)),
    ),
    (
        ((&[(0, MOST), (1, 1)], MOST), 1),
        ((&[(1, -MOST)], 0), 1),
        Some((&[(0, MOST), (1, 1 - MOST)], MOST)),
    ),
    (
        ((&[(1, -MOST)], -MOST), 1),
        ((&[(2, -1)], 0), MOST),
        Some((&[(1, -MOST), (2, -MOST)], -MOST)),
    ),
    (((&[(0, MOST)], 0), 1), ((&[(0, 1)], 0), 1), None),
    (((&[(0, 1)], MOST), 1), ((&[(1, 1)], 1), 1), None),
    (((&[(0, 1)], -MOST), 1), ((&[(1, 1)], -1), 1), None),
    (
        ((&[(0, MOST)], MOST), MOST),
        ((&[(0, -MOST)], -MOST), MOST),
        Some((&[], 0)),
    ),
];

#[test]
fn sums(rt: HostRuntime) -> Result<(), Fail> {
    let alloc = rt.alloc();
    for (left, right, want) in &SUMS {
        let (a, b) = (row(alloc, left.0)?, row(alloc, right.0)?);
        let want = match want {
            Some(want) => Some(row(alloc, *want)?),
            None => None,
        };
        assert!(rt; are_summed(alloc, (&a, left.1), (&b, right.1), want.as_ref())?);
    }
    Ok(())
}

/// Whether `combine` gives that sum or none, and `is_sum` takes it and does not take the first row for it.
fn are_summed(
    alloc: Global,
    left: (&Row, i128),
    right: (&Row, i128),
    want: Option<&Row>,
) -> Result<bool, Fail> {
    let (a, p) = left;
    let (b, q) = right;
    let most = LIMIT as i128;
    if !is_within(a) || !is_within(b) || p < 1 || p > most || q < 1 || q > most {
        return Err(Fail::from("these rows are not to be summed"));
    }
    if is_sum(a, a, p, b, q) {
        return Ok(false);
    }
    match (combine(alloc, a, p, b, q), want) {
        (Ok(sum), Some(want)) => Ok(sum == *want && is_sum(want, a, p, b, q)),
        (Err(end), None) => Ok(end == RowEnd::Wide),
        _ => Ok(false),
    }
}

/// A row, the greatest common divisor of its coefficients, and the tightened row.
const CUTS: [(Plain<'static>, u128, Plain<'static>); 11] = [
    ((&[(0, 2)], 1), 2, (&[(0, 1)], 0)),
    ((&[(0, 2)], -1), 2, (&[(0, 1)], -1)),
    ((&[(0, 2), (1, -2)], 1), 2, (&[(0, 1), (1, -1)], 0)),
    ((&[(0, -2), (1, 2)], -1), 2, (&[(0, -1), (1, 1)], -1)),
    (
        (&[(0, 6), (1, -10), (2, 15)], 7),
        1,
        (&[(0, 6), (1, -10), (2, 15)], 7),
    ),
    ((&[(0, 4), (3, -6)], -5), 2, (&[(0, 2), (3, -3)], -3)),
    ((&[], -7), 0, (&[], -7)),
    (
        (&[(0, i128::MAX)], i128::MAX),
        (1 << 127) - 1,
        (&[(0, 1)], 1),
    ),
    (
        (&[(0, i128::MIN), (1, i128::MIN)], 5),
        1 << 127,
        (&[(0, -1), (1, -1)], 0),
    ),
    ((&[(0, i128::MIN)], -5), 1 << 127, (&[(0, -1)], -1)),
    (
        (&[(0, i128::MIN), (1, 6)], i128::MIN),
        2,
        (&[(0, i128::MIN / 2), (1, 3)], i128::MIN / 2),
    ),
];

#[test]
fn cuts(rt: HostRuntime) -> Result<(), Fail> {
    let alloc = rt.alloc();
    for (given, common, want) in &CUTS {
        let (given, want) = (row(alloc, *given)?, row(alloc, *want)?);
        assert!(rt; divisor(&given) == *common && tighten(alloc, &given)? == want);
    }
    Ok(())
}

/// Parts, and whether they are those of a row.
const PARTS: [(&[(u32, i128)], bool); 8] = [
    (&[], true),
    (&[(0, 1), (1, -1), (u32::MAX, i128::MIN)], true),
    (&[(u32::MAX, 1)], true),
    (&[(0, 0)], false),
    (&[(0, 1), (1, 0), (2, 1)], false),
    (&[(1, 1), (0, 1)], false),
    (&[(3, 1), (3, 1)], false),
    (&[(u32::MAX, 1), (u32::MAX, 2)], false),
];

/// A row, whether it is a contradiction, and whether it is within the limit.
const ROWS: [(Plain<'static>, bool, bool); 7] = [
    ((&[], -1), true, true),
    ((&[], 0), false, true),
    ((&[(0, 1)], -1), false, true),
    ((&[], -MOST - 1), true, false),
    ((&[(5, -MOST)], MOST), false, true),
    ((&[(5, MOST + 1)], 0), false, false),
    ((&[(4, 1), (5, i128::MIN)], 0), false, false),
];

#[test]
fn tests_of_rows(rt: HostRuntime) -> Result<(), Fail> {
    let alloc = rt.alloc();
    for (plain, want) in &PARTS {
        assert!(rt; is_canonical(&parts(alloc, plain)?) == *want);
    }
    for (plain, contradiction, within) in &ROWS {
        let row = row(alloc, *plain)?;
        assert!(rt; is_contradiction(&row) == *contradiction && is_within(&row) == *within);
    }
    Ok(())
}

/// `6x - 4z <= -3`.
const GIVEN: Plain<'static> = (&[(0, 6), (2, -4)], -3);

/// A divisor, the row that is claimed to be the cut of the given one by it, and whether it is.
const CLAIMED: [(i128, Plain<'static>, bool); 7] = [
    (2, (&[(0, 3), (2, -2)], -2), true),
    (2, (&[(0, 3), (2, -2)], -1), false),
    (2, (&[(0, 3), (2, 2)], -2), false),
    (2, (&[(0, 3), (1, -2)], -2), false),
    (2, (&[(0, 3)], -2), false),
    (3, (&[(0, 2), (2, -1)], -1), false),
    (1, GIVEN, true),
];

#[test]
fn claimed_cuts(rt: HostRuntime) -> Result<(), Fail> {
    let alloc = rt.alloc();
    let given = row(alloc, GIVEN)?;
    for (by, claimed, want) in &CLAIMED {
        let claimed = row(alloc, *claimed)?;
        assert!(rt; is_within(&claimed) && 1 <= *by && *by <= LIMIT as i128);
        assert!(rt; is_cut(&claimed, &given, *by) == *want);
    }
    Ok(())
}
