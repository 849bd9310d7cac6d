//! The command `run` over the source: its text is read as that of one file named `-`, and a method of it is run.
#![tactic(auto)]

mod run;

pub use command_ends::Status;
pub use run::run_once;
