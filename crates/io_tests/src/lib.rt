//! Tests of the sources, the sinks, the folders and the shell of the commands, over objects in memory.
#![tactic(auto)]

#[cfg(test)]
mod folders;
#[cfg(test)]
mod objects;
#[cfg(test)]
mod runs;
#[cfg(test)]
mod statuses;
