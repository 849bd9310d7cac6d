//! Tests of proofs by natural deduction.
#![tactic(auto)]

#[cfg(test)]
mod claims;
#[cfg(test)]
mod provers;
#[cfg(test)]
mod rules;
#[cfg(test)]
mod steps;
#[cfg(test)]
mod tables;
#[cfg(test)]
mod whole;
