//! Texts, and what the calls of the parser answer on them.
#![tactic(auto)]

#[cfg(test)]
mod parts;
#[cfg(test)]
mod texts;
