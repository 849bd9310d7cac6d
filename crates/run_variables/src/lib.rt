//! How the values of a method's variables change by an assignment.
#![tactic(auto)]

mod assigning;

pub use assigning::assign;
