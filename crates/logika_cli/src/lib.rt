//! The commands of `logika`: their words, and what they do.
#![tactic(auto)]

mod check;
mod top;
mod words;

pub use check::check_once;
pub use command_ends::Status;
pub use run_source::run_once;
pub use text_reading::{LIMITS, Limits};
pub use top::{end_without_memory, logika_main};
