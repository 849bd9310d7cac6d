//! Texts, and what is printed of their trees.
#![tactic(auto)]

#[cfg(test)]
mod texts;
