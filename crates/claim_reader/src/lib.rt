//! Types and claims, read from the bytes of a key.
#![tactic(auto)]

mod claims;
mod codes;
mod leaves;
mod types;

pub use claims::read_claim;
pub use types::read_types;
