//! Whether the records of a leg are well formed and numbered by first appearance, from a table with a summary of each.
#![tactic(auto)]

pub mod laws;
mod numbering;
mod summary;
mod table;

pub use numbering::{with_record, with_type};
pub use summary::{Summary, are_fields};
pub use table::record_table;

/// Want of memory.
pub type NoMemory = std::alloc::AllocError;
