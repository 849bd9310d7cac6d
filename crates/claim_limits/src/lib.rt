//! Whether a claim is low enough, and none of its bound variables is loose.
#![tactic(auto)]

mod claims;
pub mod laws;

pub use claims::is_within;
