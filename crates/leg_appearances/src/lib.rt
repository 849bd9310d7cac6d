//! Whether the variables and the records of a leg are numbered by first appearance.
#![tactic(auto)]

mod claims;
mod items;
pub mod laws;
mod steps;
mod variables;

pub use items::items_seen;
pub use variables::Seen;
