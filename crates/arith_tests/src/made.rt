//! Rows and certificates from plain numbers.

use lin_cert::{Cert, CertLine, CertStep};
use lin_rows::{Row, RowPart, is_canonical};
use std::alloc::Global;
use std::test::Fail;

/// Variables with their coefficients, and a bound.
pub type Plain<'a> = (&'a [(u32, i128)], i128);

/// A row of two variables: the coefficient of 0, that of 1, and the bound.
pub type Pair = (i128, i128, i128);

/// The parts as they stand, canonical or not.
pub(crate) fn parts(alloc: Global, plain: &[(u32, i128)]) -> Result<Vec<RowPart>, Fail> {
    let mut made = Vec::new(alloc);
    for (var, times) in plain {
        made.push(RowPart {
            var: *var,
            times: *times,
        })?;
    }
    Ok(made)
}

/// The row of canonical parts; an error for others.
pub(crate) fn row(alloc: Global, plain: Plain<'_>) -> Result<Row, Fail> {
    let parts = parts(alloc, plain.0)?;
    if !is_canonical(&parts) {
        return Err(Fail::from("no row has these parts"));
    }
    Ok(Row::new(parts, plain.1))
}

pub(crate) fn pair(alloc: Global, plain: Pair) -> Result<Row, Fail> {
    let mut parts = Vec::new(alloc);
    for (var, times) in [(0, plain.0), (1, plain.1)] {
        if times != 0 {
            parts.push(RowPart { var, times })?;
        }
    }
    if !is_canonical(&parts) {
        return Err(Fail::from("no row has these parts"));
    }
    Ok(Row::new(parts, plain.2))
}

pub(crate) fn pairs(alloc: Global, plain: &[Pair]) -> Result<Vec<Row>, Fail> {
    let mut made = Vec::new(alloc);
    for one in plain {
        made.push(pair(alloc, *one)?)?;
    }
    Ok(made)
}

pub(crate) fn certificate(alloc: Global, lines: &[(CertStep, Pair)]) -> Result<Cert, Fail> {
    let mut made = Vec::new(alloc);
    for (step, plain) in lines {
        made.push(CertLine {
            step: *step,
            row: pair(alloc, *plain)?,
        })?;
    }
    Ok(Cert { lines: made })
}
