//! Whether a claim has the form that a rule of deduction gives it, from what is cited.
#![tactic(auto)]

mod changed;
mod cited;
mod forms;
mod rules;

pub use cited::Cited;
pub use rules::fits;
