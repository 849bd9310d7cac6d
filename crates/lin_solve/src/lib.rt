//! Elimination of variables from rows of linear arithmetic, with a certificate where it closes.
#![tactic(auto)]

mod choosing;
mod keeping;
mod solving;
mod starting;
mod turning;

use lin_cert::Cert;
use lin_rows::RowEnd;
pub use solving::{are_within, solve};
use std::alloc::{AllocError, AllocFailed};

/// The most rows that are kept at a time.
pub const MOST_ROWS: usize = 2000;

/// How an elimination ends that stays within the limits.
#[derive(Debug, Drop)]
pub enum Solved {
    /// A row is a contradiction: the certificate shows that the rows have no whole-number solution.
    Closed(Cert),
    /// No row is, and none has a variable any more.
    Open,
}

/// Why there is no answer.
#[derive(Clone, Copy, Debug, PartialEq, Eq)]
pub enum SolveEnd {
    /// A 2,001st row was to be kept.
    Rows,
    /// A number of a combination is beyond 2^60.
    Wide,
    NoMemory,
}

impl From<AllocError> for SolveEnd {
    ghost use Rattle.lin_solve.specs.declared.SolveEnd.TheVariants.{NoMemory};
    ghost use Rattle.std.specs.Prelude.{◌≡◌};

    ghost from_gives = { λ _ e. e ≡ NoMemory };

    fn from(_e: AllocError) -> SolveEnd {
        SolveEnd::NoMemory
    }
}

impl<T: Drop> From<AllocFailed<T>> for SolveEnd {
    ghost use Rattle.lin_solve.specs.declared.SolveEnd.TheVariants.{NoMemory};
    ghost use Rattle.std.specs.Prelude.{◌≡◌};

    ghost from_gives = { λ _ e. e ≡ NoMemory };

    fn from(_e: AllocFailed<T>) -> SolveEnd {
        SolveEnd::NoMemory
    }
}

impl From<RowEnd> for SolveEnd {
    ghost use Rattle.lin_solve.specs.Answers.{end_of_row};
    ghost use Rattle.std.specs.Prelude.{◌≡◌};

    ghost from_gives = { λ r e. e ≡ end_of_row r };

    fn from(e: RowEnd) -> SolveEnd {
        match e {
            RowEnd::Wide => SolveEnd::Wide,
            RowEnd::NoMemory => SolveEnd::NoMemory,
        }
    }
}
