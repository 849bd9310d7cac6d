//! The fields of records: their types as they are written, which of them they may have, and what is wrong with them.
#![tactic(auto)]

mod fields;
mod records;
mod written;

pub use fields::judged_fields;
pub use records::{allowed_of, record_table};
pub use written::written_fields;

/// Want of memory.
pub type NoMemory = std::alloc::AllocError;
