//! Small projects, and the first fault that is found in each of their files.
#![tactic(auto)]

#[cfg(test)]
mod projects;
