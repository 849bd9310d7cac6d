//! The prover of the rules: it closes what the rules of closing close, over a store of the terms.
#![tactic(auto)]

mod ending;
mod proving;

pub use proving::RuleProver;
