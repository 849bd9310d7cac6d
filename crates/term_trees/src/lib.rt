//! Terms over numbered symbols: what trees they are, by which operator and parts, and how to make them.
#![tactic(auto)]

mod make;
mod parts;
mod shape;
mod term;

pub use shape::Shape;
pub use term::{Sort, Term};

/// Want of memory.
pub type NoMemory = std::alloc::AllocError;
