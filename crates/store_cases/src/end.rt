use std::alloc::{AllocError, AllocFailed};

/// Why there is no list of cases: there are too many, or there is no memory.
#[derive(Debug, Drop)]
pub enum SplitEnd {
    Cases,
    NoMemory,
}

impl From<AllocError> for SplitEnd {
    ghost use Rattle.std.specs.Prelude.{◌≡◌};
    ghost use Rattle.store_cases.specs.declared.end.SplitEnd.TheVariants.{NoMemory};

    ghost from_gives = { λ _ e. e ≡ NoMemory };

    fn from(_end: AllocError) -> SplitEnd {
        SplitEnd::NoMemory
    }
}

impl<T: Drop> From<AllocFailed<T>> for SplitEnd {
    ghost use Rattle.std.specs.Prelude.{◌≡◌};
    ghost use Rattle.store_cases.specs.declared.end.SplitEnd.TheVariants.{NoMemory};

    ghost from_gives = { λ _ e. e ≡ NoMemory };

    fn from(_end: AllocFailed<T>) -> SplitEnd {
        SplitEnd::NoMemory
    }
}
