//! The verdicts on all methods of a program, over any prover, and the report of them.
#![tactic(auto)]

mod lines;
mod report;

pub use leg_answers::{CloseEnd, LegProver, Prover};
pub use lines::program_verdicts;
pub use report::{program_report, report_code};

/// Want of memory.
pub type NoMemory = std::alloc::AllocError;
