//! The typed program of a project without faults, from its files.
#![tactic(auto)]

mod counting;
mod files;
mod members;
mod project;

pub use files::add_files;
pub use members::Members;
pub use project::{ProjectParts, typed_project};

/// Want of memory, or of numbers that fit.
pub type NoMemory = std::alloc::AllocError;
