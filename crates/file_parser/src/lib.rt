//! Declarations, and whole texts of them, read token by token by recursive descent.
#![tactic(auto)]

mod declarations;
mod files;
mod lists;

pub use files::all_declarations;
