use std::alloc::{AllocError, AllocFailed};

/// Why there are no rows.
#[derive(Clone, Copy, Debug, PartialEq, Eq)]
pub enum RowsEnd {
    /// A row has a number beyond 2^60.
    Wide,
    NoMemory,
}

impl From<AllocError> for RowsEnd {
    ghost use Rattle.std.specs.Prelude.{◌≡◌};
    ghost use Rattle.store_atoms.specs.declared.end.RowsEnd.TheVariants.{NoMemory};

    ghost from_gives = { λ _ e. e ≡ NoMemory };

    fn from(_e: AllocError) -> RowsEnd {
        RowsEnd::NoMemory
    }
}

impl<T: Drop> From<AllocFailed<T>> for RowsEnd {
    ghost use Rattle.std.specs.Prelude.{◌≡◌};
    ghost use Rattle.store_atoms.specs.declared.end.RowsEnd.TheVariants.{NoMemory};

    ghost from_gives = { λ _ e. e ≡ NoMemory };

    fn from(_e: AllocFailed<T>) -> RowsEnd {
        RowsEnd::NoMemory
    }
}
