//! The check of the texts of a project: its report, what is printed of it, and the promise that no run of a verified method fails.
#![tactic(auto)]

mod checking;
mod printing;

pub use checking::{check_plain, faults_of};
pub use printing::{Checked, check_texts, printed};

/// Want of memory.
pub type NoMemory = std::alloc::AllocError;
