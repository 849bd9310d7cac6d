//! Whether tokens are a constant of some type, where the least number of 128 bits may stand in it.
#![tactic(auto)]

mod constants;
mod numbers;
mod states;
mod steps;
mod tokens;

pub use constants::is_constant;
