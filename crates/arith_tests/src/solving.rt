//! Eliminations, and the certificates of those that close.

use crate::made::{Pair, pairs, row};
use lin_cert::accepts;
use lin_rows::Row;
use lin_solve::{MOST_ROWS, SolveEnd, Solved, are_within, solve};
use std::alloc::Global;
use std::test::Fail;

/// 2^60.
const MOST: i128 = 1152921504606846976;

/// How an elimination ends.
#[derive(Clone, Copy, PartialEq, Eq)]
enum End {
    Closed,
    Open,
    Rows,
    Wide,
}

/// How the elimination of the rows ends. The certificate of one that closes must be accepted.
fn ending(alloc: Global, rows: &[Row]) -> Result<End, Fail> {
    if !are_within(rows) {
        return Err(Fail::from("a row is wide"));
    }
    match solve(alloc, rows) {
        Ok(solved) => ending_of(rows, &solved),
        Err(SolveEnd::Rows) => Ok(End::Rows),
        Err(SolveEnd::Wide) => Ok(End::Wide),
        Err(SolveEnd::NoMemory) => Err(Fail::from("no memory")),
    }
}

fn ending_of(rows: &[Row], solved: &Solved) -> Result<End, Fail> {
    match solved {
        Solved::Closed(certificate) if accepts(rows, certificate) => Ok(End::Closed),
        Solved::Closed(_) => Err(Fail::from("the certificate is refused")),
        Solved::Open => Ok(End::Open),
    }
}

const OF_TWO_VARIABLES: [(&str, &[Pair], End); 19] = [
    ("no rows", &[], End::Open),
    ("a contradiction", &[(0, 0, -1)], End::Closed),
    ("a row of no variable that holds", &[(0, 0, 0)], End::Open),
    (
        "a contradiction behind others",
        &[(1, 1, 5), (0, 0, 0), (-1, 0, 2), (0, 0, -3)],
        End::Closed,
    ),
    ("x <= -1, -x <= 0", &[(1, 0, -1), (-1, 0, 0)], End::Closed),
    ("2x <= 1", &[(2, 0, 1)], End::Open),
    ("2x <= 1, -2x <= -1", &[(2, 0, 1), (-2, 0, -1)], End::Closed),
    ("2x == 2y + 1", &[(2, -2, 1), (-2, 2, -1)], End::Closed),
    (
        "2x == 3y, y == 1, which a fraction satisfies",
        &[(2, -3, 0), (-2, 3, 0), (0, 1, 1), (0, -1, -1)],
        End::Open,
    ),
    (
        "-x + 2y <= 0, y == 2^60",
        &[(-1, 2, 0), (0, 1, MOST), (0, -1, -MOST)],
        End::Open,
    ),
    (
        "multipliers with a common divisor",
        &[(-4, 1, 0), (6, -1, -3), (0, 1, -9), (0, -1, 9)],
        End::Open,
    ),
    (
        "two turns and a cut",
        &[(3, 5, 7), (-3, 1, -2), (0, -6, -6), (1, 0, 9)],
        End::Closed,
    ),
    (
        "2^60 in a sum",
        &[(-1, 0, MOST / 2), (1, 0, MOST / 2)],
        End::Open,
    ),
    (
        "one more than 2^60 in a sum",
        &[(-1, 0, MOST / 2), (1, 0, MOST / 2 + 1)],
        End::Wide,
    ),
    (
        "2^60 on both sides",
        &[(-1, 0, MOST), (1, 0, MOST)],
        End::Wide,
    ),
    (
        "2y <= 2^61 before it is tightened",
        &[(-1, 1, MOST), (1, 1, MOST), (0, 1, 0), (0, -1, 0)],
        End::Wide,
    ),
    (
        "the cheaper variable goes first, though x is less",
        &[(-1, 1, MOST), (1, 1, MOST)],
        End::Open,
    ),
    (
        "a contradiction is built in the turn that ends Wide",
        &[(-1, 0, -1), (-1, 0, MOST), (1, 0, 0), (1, 0, MOST)],
        End::Wide,
    ),
    (
        "the same, and the sum beyond the limit is not built",
        &[(-1, 0, -1), (-1, 0, MOST), (1, 0, 0)],
        End::Closed,
    ),
];

#[test]
fn of_two_variables(rt: HostRuntime) -> Result<(), Fail> {
    let alloc = rt.alloc();
    for (name, plain, want) in &OF_TWO_VARIABLES {
        assert!(rt; ending(alloc, &pairs(alloc, plain)?)? == *want, "{name}");
    }
    Ok(())
}

/// The rows `x <= 0`, `x <= 1` and so on.
fn upper_bounds(alloc: Global, count: u32) -> Result<Vec<Row>, Fail> {
    let mut rows = Vec::new(alloc);
    for i in 0..count {
        rows.push(row(alloc, (&[(3, 1)], i128::from(i)))?)?;
    }
    Ok(rows)
}

#[test]
fn many_at_the_start(rt: HostRuntime) -> Result<(), Fail> {
    let alloc = rt.alloc();
    assert!(rt; MOST_ROWS == 2000);
    let mut rows = upper_bounds(alloc, 2000)?;
    // Once tightened it is the first row.
    rows.push(row(alloc, (&[(3, 2)], 1))?)?;
    assert!(rt; ending(alloc, &rows)? == End::Open);
    rows.push(row(alloc, (&[], -1))?)?;
    assert!(rt; ending(alloc, &rows)? == End::Rows);
    Ok(())
}

/// Bounds of one variable from below and from above, with a row of none, so that no two of their sums are equal.
fn bounds(alloc: Global, lowers: u32, uppers: u32, beside: i128) -> Result<Vec<Row>, Fail> {
    let mut rows = Vec::new(alloc);
    for i in 0..lowers {
        rows.push(row(alloc, (&[(7, -1)], 1000 * i128::from(i)))?)?;
    }
    for i in 0..uppers {
        rows.push(row(alloc, (&[(7, 1)], i128::from(i)))?)?;
    }
    rows.push(row(alloc, (&[], beside))?)?;
    Ok(rows)
}

#[test]
fn many_in_a_turn(rt: HostRuntime) -> Result<(), Fail> {
    let alloc = rt.alloc();
    // 2,000 sums, one of which is the row beside them; or all of them beside another.
    let cases = [
        (40, 50, 0, End::Open),
        (40, 50, 999, End::Rows),
        (45, 45, 0, End::Rows),
    ];
    for (lowers, uppers, beside, want) in &cases {
        let rows = bounds(alloc, *lowers, *uppers, *beside)?;
        assert!(rt; ending(alloc, &rows)? == *want);
    }
    Ok(())
}

/// The rows `x0 - x1 <= 0`, `x1 - x2 <= 0` and so on, and `xN - x0 <= bound`.
fn ring(alloc: Global, count: u32, bound: i128) -> Result<Vec<Row>, Fail> {
    let mut rows = Vec::new(alloc);
    for var in 0..count {
        rows.push(row(alloc, (&[(var, 1), (var + 1, -1)], 0))?)?;
    }
    rows.push(row(alloc, (&[(0, -1), (count, 1)], bound))?)?;
    Ok(rows)
}

#[test]
fn of_a_hundred_variables(rt: HostRuntime) -> Result<(), Fail> {
    let alloc = rt.alloc();
    for (bound, want) in &[(0, End::Open), (-1, End::Closed)] {
        let rows = ring(alloc, 99, *bound)?;
        assert!(rt; ending(alloc, &rows)? == *want);
    }
    Ok(())
}
