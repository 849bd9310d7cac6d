//! Terms over numbered symbols, their linear forms, sequents of terms, and substitution.
#![tactic(auto)]

mod closed;
pub mod laws;
mod place;
mod sequent;
mod step;
mod substitution;

pub use closed::is_closed;
pub use sequent::Sequent;
pub use step::StepTerm;
pub use substitution::substitute;
pub use term_forms::{Form, FormEnd, Part, form_term, linear_form};
pub use term_trees::{Shape, Sort, Term};
pub use term_walks::{TermSize, compare, copy, measure};

/// Want of memory.
pub type NoMemory = std::alloc::AllocError;
