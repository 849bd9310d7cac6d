//! A row, and the tests of it.

ghost use Rattle.std.specs.Prelude.{◌≡◌, ◌↔◌, IsTrue, IfOk, ℤ, pos};
ghost use Rattle.lin_rows.specs.Inequality.{IsCanonical};
ghost use Rattle.lin_rows.specs.Inequality as row_specs;

use std::alloc::{AllocError, AllocFailed, Global};
use std::marker::Model;

/// The greatest absolute value of a number in a row that is combined: 2^60.
pub const LIMIT: u128 = 1152921504606846976;

/// Want of memory, the one error of `tighten` and `cut`.
pub type NoMemory = AllocError;

/// A variable and its coefficient.
#[derive(Clone, Copy, Debug, PartialEq, Eq)]
pub struct RowPart {
    pub var: u32,
    pub times: i128,
}

/// The sum of the parts is at most the bound. The parts rise by their variables, and none is 0 times.
#[derive(Debug, Drop)]
pub struct Row {
    pub parts: Vec<RowPart>,
    pub bound: i128,
}

impl Model for Row {
    ghost use Rattle.lin_rows.specs.Inequality.{Inequality, IsCanonical};

    ghost Value = { Inequality };

    ghost view = { λ a. record { parts = a.parts.items; bound = a.bound } };

    ghost invariant = { λ a. IsCanonical a.parts.items };
}

/// Why `combine` has no row.
#[derive(Clone, Copy, Debug, PartialEq, Eq)]
pub enum RowEnd {
    /// A number of the sum is beyond 2^60.
    Wide,
    NoMemory,
}

impl From<AllocError> for RowEnd {
    ghost use Rattle.lin_rows.specs.declared.row.RowEnd.TheVariants.{NoMemory};
    ghost use Rattle.std.specs.Prelude.{◌≡◌};

    ghost from_gives = { λ _ e. e ≡ NoMemory };

    fn from(_e: AllocError) -> RowEnd {
        RowEnd::NoMemory
    }
}

impl<T: Drop> From<AllocFailed<T>> for RowEnd {
    ghost use Rattle.lin_rows.specs.declared.row.RowEnd.TheVariants.{NoMemory};
    ghost use Rattle.std.specs.Prelude.{◌≡◌};

    ghost from_gives = { λ _ e. e ≡ NoMemory };

    fn from(_e: AllocFailed<T>) -> RowEnd {
        RowEnd::NoMemory
    }
}

impl Row {
    /// The row of these parts.
    pub fn new(parts: Vec<RowPart>, bound: i128) -> Row
        requires { IsCanonical parts.items }
        ensures { result ≡ record { parts = parts.items; bound = bound } }
    {
        Row { parts, bound }
    }

    /// The same row once more.
    pub fn copy(&self, alloc: Global) -> Result<Row, NoMemory>
        ensures { IfOk result (λ row. row ≡ self.now) }
    {
        let parts = Vec::from_slice(alloc, &self.parts)?;
        Ok(Row {
            parts,
            bound: self.bound,
        })
    }
}

/// Whether parts can be those of a row: the variables rise, and none is 0 times.
pub fn is_canonical(parts: &[RowPart]) -> bool
    ensures { IsTrue result ↔ IsCanonical parts.now }
{
    let mut low = 0u64;
    for part in parts {
        let var = u64::from(part.var);
        if var < low || part.times == 0 {
            return false;
        }
        low = var + 1;
    }
    true
}

/// Whether a number is at most 2^60, without its sign.
pub fn is_small(number: i128) -> bool
    ensures { result ≡ row_specs.is_small number }
{
    number.unsigned_abs() <= LIMIT
}

/// Whether no number of the row is beyond 2^60.
pub fn is_within(row: &Row) -> bool
    ensures { result ≡ row_specs.is_within row.now }
{
    is_small(row.bound) && are_small(&row.parts)
}

fn are_small(parts: &[RowPart]) -> bool
    ensures { result ≡ row_specs.are_small parts.now }
{
    parts.iter().all(|part| is_small(part.times))
}

/// Whether the row has no parts and a negative bound.
pub fn is_contradiction(row: &Row) -> bool
    ensures { result ≡ row_specs.is_contradiction row.now }
{
    row.parts.is_empty() && row.bound < 0
}

impl PartialEq for Row {
    ghost use Rattle.lin_rows.specs.Same.{same, same_laws};

    ghost eq = { same };

    ghost laws = { same_laws };

    fn eq(&self, other: &Row) -> bool {
        self.bound == other.bound && self.parts == other.parts
    }
}

impl Eq for Row {
    ghost use Rattle.lin_rows.specs.Same.{same_equivalence};

    ghost laws = { same_equivalence };
}
