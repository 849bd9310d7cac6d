//! Constants, read token by token by recursive descent.
#![tactic(auto)]

mod constants;

pub use constants::constant;
