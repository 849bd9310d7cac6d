//! Declarations, printed at the end of a text.
#![tactic(auto)]

mod contracts;
mod declarations;
mod methods;

pub use declarations::add_decl;
pub use token_printing::NoMemory;
