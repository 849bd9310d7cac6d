//! The types that names of a text stand for, where they stand as types.
#![tactic(auto)]

mod judged;

pub use judged::{element_of, result_type, variable_type};
