//! What is found at each form of an expression, from what is found at its parts: its type, and faults of its own.
#![tactic(auto)]

mod calls;
mod context;
mod fields;
mod names;
mod operators;
mod quantifiers;
mod sequences;

pub use calls::{call, nested_call, record};
pub use context::Context;
pub use fields::field;
pub use names::{entry_value, named, new_number, old_value, result_word};
pub use operators::{binary, prefix};
pub use quantifiers::{quantified, quantified_indices};
pub use sequences::{elements, listed, read, update};
