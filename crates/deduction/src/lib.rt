//! Proofs by natural deduction over terms, checked step by step over any prover.
#![tactic(auto)]

mod checking;
mod conclusion;
mod end;
mod line;

pub use checking::check_proof;
pub use end::{BadStep, ProofEnd};
pub use proof_closing::{CloseEnd, Closing, Prover};
