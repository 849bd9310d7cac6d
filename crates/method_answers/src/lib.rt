//! The verdict on a method of a program, over any prover.
#![tactic(auto)]

mod answering;

pub use answering::method_answer;
pub use leg_answers::{CloseEnd, LegProver, Prover};
