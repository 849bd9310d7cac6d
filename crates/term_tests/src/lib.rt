//! Tests of terms: how they are made, taken apart, walked and substituted in, their linear forms, and sequents of them.
#![tactic(auto)]

#[cfg(test)]
mod forms;
#[cfg(test)]
mod limits;
#[cfg(test)]
mod made;
#[cfg(test)]
mod sequents;
#[cfg(test)]
mod substituting;
#[cfg(test)]
mod values;
#[cfg(test)]
mod walks;
