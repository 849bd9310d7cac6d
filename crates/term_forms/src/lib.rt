//! The linear form of a term: a sum of atoms and a constant.
#![tactic(auto)]

mod form;
mod linear;
mod numbers;
mod operators;
mod parts;
mod sums;
mod terms;

pub use form::{Form, FormEnd, Part};
pub use linear::linear_form;
pub use operators::difference;
pub use terms::form_term;

/// Want of memory.
pub type NoMemory = std::alloc::AllocError;
