//! Tests of the arithmetic: rows, sums, cuts, certificates and eliminations.
#![tactic(auto)]

#[cfg(test)]
mod certificates;
#[cfg(test)]
mod made;
#[cfg(test)]
mod rows;
#[cfg(test)]
mod solving;
