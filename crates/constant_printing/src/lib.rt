//! Constants, printed at the end of a text.
#![tactic(auto)]

mod constants;

pub use constants::add_const;
pub use token_printing::NoMemory;
