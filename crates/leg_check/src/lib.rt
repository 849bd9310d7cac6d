//! The answer of a key: that of the leg whose key it is, over any prover.
#![tactic(auto)]

mod answering;
mod end;

pub use answering::answer_leg;
pub use end::LegEnd;
pub use leg_answers::{LegProver, Prover};
