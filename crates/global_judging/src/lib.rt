//! What is wrong with a global, and with the fields of a record.
#![tactic(auto)]

mod globals;
mod records;

pub use globals::judged_global;
pub use records::judged_record;

/// Want of memory.
pub type NoMemory = std::alloc::AllocError;
