//! The typed program, the legs and the answers, as the definitions of their meaning see them: plain data in `specs/`, over names
//! of any kind.
#![tactic(auto)]

mod answer;

pub use answer::{Answer, Kind, Reason};
