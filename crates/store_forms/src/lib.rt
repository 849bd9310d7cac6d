//! Linear forms whose atoms are terms of a store, by the forms of parts.
#![tactic(auto)]

mod adding;
mod form;
mod numbers;
mod operators;
mod parts;
mod sums;
mod terms;

pub use form::{IdForm, IdPart};
pub use operators::{binary_form, difference, unary_form};
pub use terms::form_term;

/// Want of memory.
pub type NoMemory = std::alloc::AllocError;
