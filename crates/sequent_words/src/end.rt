use std::alloc::{AllocError, AllocFailed};

/// Why words spell no sequent: one of them is out of place, or there is no memory.
#[derive(Clone, Copy, Debug, PartialEq, Eq, Drop)]
pub enum WordsEnd {
    BadWord,
    NoMemory,
}

impl From<AllocError> for WordsEnd {
    fn from(_end: AllocError) -> WordsEnd {
        WordsEnd::NoMemory
    }
}

impl<T: Drop> From<AllocFailed<T>> for WordsEnd {
    fn from(_end: AllocFailed<T>) -> WordsEnd {
        WordsEnd::NoMemory
    }
}
