//! Certificates that are accepted, and such as are refused.

use crate::made::{Pair, certificate, pairs};
use lin_cert::CertStep::{Comb, Cut, Take};
use lin_cert::{CertStep, accepts};
use lin_rows::Row;
use std::alloc::Global;
use std::test::Fail;

/// 2^60.
const MOST: i128 = 1152921504606846976;

/// What is tried, the lines, and whether they are accepted.
type Case = (&'static str, &'static [(CertStep, Pair)], bool);

/// `x <= -1` and `-x <= 0`.
const OF_TWO_ROWS: [Case; 17] = [
    ("no lines", &[], false),
    (
        "the sum",
        &[
            (Take(0), (1, 0, -1)),
            (Take(1), (-1, 0, 0)),
            (Comb(0, 1, 1, 1), (0, 0, -1)),
        ],
        true,
    ),
    (
        "a multiplier of 0",
        &[
            (Take(0), (1, 0, -1)),
            (Take(1), (-1, 0, 0)),
            (Comb(0, 1, 1, 0), (0, 0, -1)),
        ],
        false,
    ),
    (
        "a multiplier of 0 that fits",
        &[(Take(0), (1, 0, -1)), (Comb(0, 1, 0, 0), (1, 0, -1))],
        false,
    ),
    (
        "a multiplier below 0",
        &[(Take(0), (1, 0, -1)), (Comb(0, 1, 0, -1), (0, 0, 0))],
        false,
    ),
    (
        "twice the sum",
        &[
            (Take(0), (1, 0, -1)),
            (Take(1), (-1, 0, 0)),
            (Comb(0, 2, 1, 2), (0, 0, -2)),
        ],
        true,
    ),
    (
        "the greatest multiplier",
        &[
            (Take(0), (1, 0, -1)),
            (Take(1), (-1, 0, 0)),
            (Comb(0, MOST, 1, MOST), (0, 0, -MOST)),
        ],
        true,
    ),
    (
        "one past it",
        &[
            (Take(0), (1, 0, -1)),
            (Take(1), (-1, 0, 0)),
            (Comb(0, MOST + 1, 1, MOST + 1), (0, 0, -MOST - 1)),
        ],
        false,
    ),
    (
        "another bound",
        &[
            (Take(0), (1, 0, -1)),
            (Take(1), (-1, 0, 0)),
            (Comb(0, 1, 1, 1), (0, 0, -2)),
        ],
        false,
    ),
    (
        "a part too many",
        &[
            (Take(0), (1, 0, -1)),
            (Take(1), (-1, 0, 0)),
            (Comb(0, 1, 1, 1), (0, 1, -1)),
        ],
        false,
    ),
    (
        "no contradiction",
        &[(Take(0), (1, 0, -1)), (Take(1), (-1, 0, 0))],
        false,
    ),
    (
        "a contradiction that is not last",
        &[
            (Take(0), (1, 0, -1)),
            (Take(1), (-1, 0, 0)),
            (Comb(0, 1, 1, 1), (0, 0, -1)),
            (Take(0), (1, 0, -1)),
        ],
        false,
    ),
    (
        "another row taken",
        &[
            (Take(0), (-1, 0, 0)),
            (Take(1), (-1, 0, 0)),
            (Comb(0, 1, 1, 1), (0, 0, -1)),
        ],
        false,
    ),
    ("a row that is not given", &[(Take(2), (0, 0, -1))], false),
    (
        "a step to itself",
        &[
            (Take(0), (1, 0, -1)),
            (Take(1), (-1, 0, 0)),
            (Comb(0, 1, 2, 1), (0, 0, -1)),
        ],
        false,
    ),
    (
        "a step to a later line",
        &[
            (Take(0), (1, 0, -1)),
            (Comb(0, 1, 2, 1), (0, 0, -1)),
            (Take(1), (-1, 0, 0)),
            (Comb(0, 1, 2, 1), (0, 0, -1)),
        ],
        false,
    ),
    (
        "a step far past the end",
        &[(Take(0), (1, 0, -1)), (Cut(u32::MAX, 1), (0, 0, -1))],
        false,
    ),
];

/// `2x = 2y + 1`.
const OF_AN_ODD_EQUATION: [Case; 8] = [
    (
        "both cut",
        &[
            (Take(0), (2, -2, 1)),
            (Cut(0, 2), (1, -1, 0)),
            (Take(1), (-2, 2, -1)),
            (Cut(2, 2), (-1, 1, -1)),
            (Comb(1, 1, 3, 1), (0, 0, -1)),
        ],
        true,
    ),
    (
        "one cut",
        &[
            (Take(0), (2, -2, 1)),
            (Cut(0, 2), (1, -1, 0)),
            (Take(1), (-2, 2, -1)),
            (Comb(1, 2, 2, 1), (0, 0, -1)),
        ],
        true,
    ),
    (
        "none cut",
        &[
            (Take(0), (2, -2, 1)),
            (Take(1), (-2, 2, -1)),
            (Comb(0, 1, 1, 1), (0, 0, 0)),
        ],
        false,
    ),
    (
        "a cut that rounds up",
        &[
            (Take(0), (2, -2, 1)),
            (Take(1), (-2, 2, -1)),
            (Cut(1, 2), (-1, 1, 0)),
            (Cut(0, 2), (1, -1, 0)),
            (Comb(2, 1, 3, 1), (0, 0, 0)),
        ],
        false,
    ),
    (
        "a divisor of 0",
        &[(Take(0), (2, -2, 1)), (Cut(0, 0), (0, 0, -1))],
        false,
    ),
    (
        "a divisor below 0",
        &[(Take(0), (2, -2, 1)), (Cut(0, -2), (-1, 1, -1))],
        false,
    ),
    (
        "a divisor that does not divide",
        &[(Take(0), (2, -2, 1)), (Cut(0, 4), (0, 0, -1))],
        false,
    ),
    (
        "a divisor past the limit",
        &[
            (Take(0), (2, -2, 1)),
            (Cut(0, 2), (1, -1, 0)),
            (Take(1), (-2, 2, -1)),
            (Comb(1, 2, 2, 1), (0, 0, -1)),
            (Cut(3, MOST + 1), (0, 0, -1)),
        ],
        false,
    ),
];

/// One of the rows has a number past 2^60: it cannot be taken.
const OF_WIDE_ROWS: [Case; 3] = [
    ("wide", &[(Take(0), (0, 0, -MOST - 1))], false),
    ("within", &[(Take(1), (0, 0, -MOST))], true),
    (
        "a sum past the limit",
        &[
            (Take(1), (0, 0, -MOST)),
            (Comb(0, 1, 0, 1), (0, 0, -2 * MOST)),
        ],
        false,
    ),
];

fn are_judged(alloc: Global, given: &[Pair], cases: &[Case]) -> Result<(), Fail> {
    let rows = pairs(alloc, given)?;
    for case in cases {
        is_judged(alloc, &rows, case)?;
    }
    Ok(())
}

fn is_judged(alloc: Global, rows: &[Row], case: &Case) -> Result<(), Fail> {
    let (name, lines, want) = *case;
    if accepts(rows, &certificate(alloc, lines)?) != want {
        return Err(Fail::from(name));
    }
    Ok(())
}

#[test]
fn certificates(rt: HostRuntime) -> Result<(), Fail> {
    let alloc = rt.alloc();
    are_judged(alloc, &[(1, 0, -1), (-1, 0, 0)], &OF_TWO_ROWS)?;
    are_judged(alloc, &[(2, -2, 1), (-2, 2, -1)], &OF_AN_ODD_EQUATION)?;
    are_judged(alloc, &[(0, 0, -MOST - 1), (0, 0, -MOST)], &OF_WIDE_ROWS)
}
