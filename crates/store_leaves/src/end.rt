use lin_solve::SolveEnd;
use store_rows::RowsEnd;

/// Why a case is not closed: it is left open, an elimination was to keep too many rows, a number is beyond 2^60, or there is no
/// memory.
#[derive(Clone, Copy, Debug, PartialEq, Eq, Drop)]
pub enum LeafEnd {
    Open,
    Rows,
    Wide,
    NoMemory,
}

impl From<RowsEnd> for LeafEnd {
    ghost use Rattle.std.specs.Prelude.{◌≡◌};
    ghost use Rattle.store_leaves.specs.Ends.{end_of_rows};

    ghost from_gives = { λ end e. e ≡ end_of_rows end };

    fn from(end: RowsEnd) -> LeafEnd {
        match end {
            RowsEnd::Wide => LeafEnd::Wide,
            RowsEnd::NoMemory => LeafEnd::NoMemory,
        }
    }
}

impl From<SolveEnd> for LeafEnd {
    ghost use Rattle.std.specs.Prelude.{◌≡◌};
    ghost use Rattle.store_leaves.specs.Ends.{end_of_solve};

    ghost from_gives = { λ end e. e ≡ end_of_solve end };

    fn from(end: SolveEnd) -> LeafEnd {
        match end {
            SolveEnd::Rows => LeafEnd::Rows,
            SolveEnd::Wide => LeafEnd::Wide,
            SolveEnd::NoMemory => LeafEnd::NoMemory,
        }
    }
}
