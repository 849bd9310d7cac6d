ghost use Rattle.std.specs.Prelude.{◌≡◌};
ghost use Rattle.term_forms.specs.declared.form.FormEnd.TheVariants.{NoMemory};

use std::alloc::{AllocError, AllocFailed};
use term_trees::Term;

/// An atom, and how often it is taken.
#[derive(Drop)]
pub struct Part {
    pub atom: Term,
    pub times: i128,
}

/// A sum of parts in the order of their atoms, and a constant.
#[derive(Drop)]
pub struct Form {
    pub parts: Vec<Part>,
    pub constant: i128,
}

/// Why there is no form.
#[derive(Clone, Copy, Debug, PartialEq, Eq)]
pub enum FormEnd {
    /// The form of the term or of one of its subterms has a number beyond 2^60.
    Wide,
    NoMemory,
}

impl From<AllocError> for FormEnd {
    ghost from_gives = { λ _ e. e ≡ NoMemory };

    fn from(_e: AllocError) -> FormEnd {
        FormEnd::NoMemory
    }
}

impl<T: Drop> From<AllocFailed<T>> for FormEnd {
    ghost from_gives = { λ _ e. e ≡ NoMemory };

    fn from(_e: AllocFailed<T>) -> FormEnd {
        FormEnd::NoMemory
    }
}
