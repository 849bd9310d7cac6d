//! Tests of sequents with many instances.
#![tactic(auto)]

#[cfg(test)]
mod counting;
