//! How many legs a method has, told without building them.
#![tactic(auto)]

mod count;

pub use count::{leg_count, leg_count_behind};
