//! The items of a leg before its variables are numbered: what each statement puts in front of the legs of what follows it.
#![tactic(auto)]

mod adding;
mod claims;
mod demands;
mod draft;
mod name;
mod steps;

pub use adding::{
    add_assumed, add_checked, add_demanded, add_false, add_fresh, add_proof, add_required, add_set,
    add_true, add_variable,
};
pub use claims::claim_of;
pub use draft::{Draft, DraftItem};
pub use name::{Frame, MethodVariable, Name, Scope};

/// Want of memory.
pub type NoMemory = std::alloc::AllocError;
