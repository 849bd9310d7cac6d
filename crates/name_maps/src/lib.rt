//! Values by names, of which the last ones can be taken back.
#![tactic(auto)]

mod name_map;

pub use name_map::NameMap;
