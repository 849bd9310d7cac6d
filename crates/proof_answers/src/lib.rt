//! What a proof comes to: the label of the step that is refused, or claims that are valid.
#![tactic(auto)]

mod accepting;

pub use accepting::{accepted_claims, refused_step};
