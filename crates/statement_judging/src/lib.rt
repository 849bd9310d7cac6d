//! What is wrong with statements, and what is in scope behind them.
#![tactic(auto)]

mod declaring;
mod leaving;
mod statements;

pub use statements::judged_stmts;

/// Want of memory.
pub type NoMemory = std::alloc::AllocError;
