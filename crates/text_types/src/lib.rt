//! The types that a text can name, and what is found at its parts: types and faults.
#![tactic(auto)]

mod expected;
mod found;
mod text_type;

pub use expected::{all_expect, are_typed, argument_faults, expects, over, over_typed};
pub use found::Found;
pub use text_type::{ElementType, TextType};
