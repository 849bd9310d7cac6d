//! Statements and constants, and the first fault that is found in each.
#![tactic(auto)]

#[cfg(test)]
mod faults;
#[cfg(test)]
mod scopes;
