//! What a proof asks of a prover: whether a claim is closed, from what is cited or from all that is known.
#![tactic(auto)]

mod closing;
mod prover;

pub use closing::{is_closed, known_claims};
pub use prover::{CloseEnd, Closing, Prover};
