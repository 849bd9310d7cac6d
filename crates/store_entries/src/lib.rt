//! What is found of the linear form of each term of a store: the form, or that the term is Wide.
#![tactic(auto)]

mod entry;

pub use entry::Entry;
pub use store_forms::{IdForm, IdPart};
