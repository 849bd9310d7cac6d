//! Tests of the legs of methods.
#![tactic(auto)]

#[cfg(test)]
mod calls;
#[cfg(test)]
mod programs;
#[cfg(test)]
mod tables;
