//! The verdict on a method from the answers for its legs, and the texts that tell of verdicts and of faults.
#![tactic(auto)]

mod choosing;
pub mod laws;
mod report;
mod verdict;
mod words;

pub use choosing::method_verdict;
pub use report::{Line, Report, fault_text, report_text, verified_count};
pub use verdict::Verdict;

/// Want of memory.
pub type NoMemory = std::alloc::AllocError;
