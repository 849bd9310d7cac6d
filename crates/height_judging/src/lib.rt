//! The first place in a declaration where an expression, a constant or a proof is too high.
//!
//! A walk stops where no part may stand any more, so it goes no deeper into an expression than the limit, and takes no memory.
#![tactic(auto)]

mod constants;
mod declarations;
mod expressions;
mod limits;
mod places;
mod statements;
mod steps;

pub use constants::constant_height;
pub use declarations::{declaration_heights, file_heights};
pub use expressions::{claim_heights, expression_height, expression_heights};
pub use statements::statement_heights;
pub use steps::step_heights;
