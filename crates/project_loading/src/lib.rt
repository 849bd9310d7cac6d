//! The typed program of a project, or the first fault of each of its files that has one.
#![tactic(auto)]

mod checking;
mod loading;

pub use checking::{CheckEnd, check_program};
pub use loading::load;
