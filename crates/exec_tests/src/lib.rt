//! Tests of legs that are followed over a store.
#![tactic(auto)]

#[cfg(test)]
mod doubling;
#[cfg(test)]
mod following;
#[cfg(test)]
mod items;
#[cfg(test)]
mod proving;
#[cfg(test)]
mod readable;
