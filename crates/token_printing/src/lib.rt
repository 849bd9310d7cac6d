//! Tokens and types, printed at the end of a text.
#![tactic(auto)]

mod gaps;
mod numerals;
mod operators;
mod types;
mod words;

pub use gaps::{Gap, add_gap};
pub use numerals::add_numeral;
pub use operators::{operator_row, operator_sign};
pub use types::add_type;
pub use words::{add_name, add_text, add_word};

/// Want of memory.
pub type NoMemory = std::alloc::AllocError;
