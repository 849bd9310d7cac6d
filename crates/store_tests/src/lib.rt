//! Tests of stores of terms: what is held once, and how large it is.
#![tactic(auto)]

#[cfg(test)]
mod shared;
#[cfg(test)]
mod sizes;
