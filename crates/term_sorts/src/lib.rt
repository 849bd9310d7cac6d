//! The types of terms, from the sorts of their symbols and of the fields of records.
#![tactic(auto)]

mod term_type;
mod types;

pub use term_type::TermType;
pub use types::{is_number, is_truth, type_of};
