//! Formulas of a store: the types of their parts, and what they become by what stands at their top.
#![tactic(auto)]

mod sorts;
mod top;

pub use sorts::type_of;
pub use top::{Signed, Top, top_of};
