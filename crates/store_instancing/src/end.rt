use std::alloc::{AllocError, AllocFailed};

/// Why there are no instances: there are too many, or one is too large, or there is no memory.
#[derive(Debug, Drop)]
pub enum InstEnd {
    Instances,
    Size,
    NoMemory,
}

impl From<AllocError> for InstEnd {
    ghost use Rattle.std.specs.Prelude.{◌≡◌};
    ghost use Rattle.store_instancing.specs.declared.end.InstEnd.TheVariants.{NoMemory};

    ghost from_gives = { λ _ e. e ≡ NoMemory };

    fn from(_end: AllocError) -> InstEnd {
        InstEnd::NoMemory
    }
}

impl<T: Drop> From<AllocFailed<T>> for InstEnd {
    ghost use Rattle.std.specs.Prelude.{◌≡◌};
    ghost use Rattle.store_instancing.specs.declared.end.InstEnd.TheVariants.{NoMemory};

    ghost from_gives = { λ _ e. e ≡ NoMemory };

    fn from(_end: AllocFailed<T>) -> InstEnd {
        InstEnd::NoMemory
    }
}

/// What comes of instancing where there is memory.
#[derive(Clone, Copy)]
pub enum Instanced {
    Added,
    TooMany,
    TooLarge,
}
