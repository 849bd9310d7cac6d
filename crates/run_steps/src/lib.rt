//! What a statement of a run does, up to the stops of its expressions and claims, and the tests of loops and of contracts.
#![tactic(auto)]

mod calling;
mod ending;
mod evaluating;
mod looping;
mod setting;
mod statement;
mod telling;

pub use calling::{begin_call, method_at};
pub use ending::{Next, RunEnd};
pub use evaluating::{arguments_of, truth_of, value_of};
pub use looping::{invariants_of, loop_holds};
pub use statement::begin;
pub use telling::{tested, tested_at};

/// Want of memory.
pub type NoMemory = std::alloc::AllocError;
