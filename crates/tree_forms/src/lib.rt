//! The order of trees and linear forms, as definitions with their laws.
#![tactic(auto)]

pub mod laws;
