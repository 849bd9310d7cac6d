//! The value of an expression of the program, or where its evaluation stops.
#![tactic(auto)]

mod ending;
mod environment;
mod evaluation;
mod forms;
pub mod made;
pub mod numbers;

pub use ending::EvalEnd;
pub use environment::Env;
pub use evaluation::{eval_all, eval_expr, eval_truth};

/// Want of memory.
pub type NoMemory = std::alloc::AllocError;
