//! Statements, printed at the end of a text.
#![tactic(auto)]

mod parts;
mod statements;

pub use parts::{add_declared, add_names, add_typed};
pub use statements::add_stmt;
pub use token_printing::NoMemory;
