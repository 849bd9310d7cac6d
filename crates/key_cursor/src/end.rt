use std::alloc::{AllocError, AllocFailed};

/// Why nothing is read: the bytes are not what is read there, or there is no memory.
#[derive(Debug, Clone, Copy)]
pub enum ReadEnd {
    NotKey,
    NoMemory,
}

impl From<AllocError> for ReadEnd {
    ghost use Rattle.std.specs.Prelude.{◌≡◌};
    ghost use Rattle.key_cursor.specs.declared.end.ReadEnd.TheVariants.{NoMemory};

    ghost from_gives = { λ _ e. e ≡ NoMemory };

    fn from(_end: AllocError) -> ReadEnd {
        ReadEnd::NoMemory
    }
}

impl<T: Drop> From<AllocFailed<T>> for ReadEnd {
    ghost use Rattle.std.specs.Prelude.{◌≡◌};
    ghost use Rattle.key_cursor.specs.declared.end.ReadEnd.TheVariants.{NoMemory};

    ghost from_gives = { λ _ e. e ≡ NoMemory };

    fn from(_end: AllocFailed<T>) -> ReadEnd {
        ReadEnd::NoMemory
    }
}
