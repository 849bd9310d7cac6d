//! Tests of keys: those of legs are read back to the same bytes, all other bytes are refused, and stores number them.
#![tactic(auto)]

#[cfg(test)]
mod answering;
#[cfg(test)]
mod decoding;
#[cfg(test)]
mod keys;
#[cfg(test)]
mod reading;
#[cfg(test)]
mod storing;
