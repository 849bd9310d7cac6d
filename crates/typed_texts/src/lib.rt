//! The typed program of a project whose names and types have no fault, as a definition in `specs/` over the trees of its texts.
#![tactic(auto)]
