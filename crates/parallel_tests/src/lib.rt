//! Tests of the check by threads: the same report for each number of workers.
#![tactic(auto)]

#[cfg(test)]
mod workers;
