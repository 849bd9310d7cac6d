//! The command `run` on small texts: what it writes, and its code.
#![tactic(auto)]

#[cfg(test)]
mod runs;
