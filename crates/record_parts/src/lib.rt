//! Which fields of records may be of their types: a record may not hold itself, nor have more than 1,000 parts.
#![tactic(auto)]

mod allowing;
mod chains;
mod holding;
mod parts;

pub use allowing::allowed_fields;

/// Want of memory.
pub type NoMemory = std::alloc::AllocError;
