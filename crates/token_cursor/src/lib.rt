//! A cursor over the tokens of a text, and its names and types read from there.
//!
//! Each contract speaks of the machine that reads a text token by token: for each state around it, what comes of the
//! tokens from that state on is what comes of those that the function leaves, from the state that it tells of. Where it
//! refuses, the cursor stands at the token with which no text goes on.
#![tactic(auto)]

mod cursor;
mod stop;
mod types;
mod words;

pub use cursor::{Cursor, is};
pub use stop::{Due, Stop, kept};
pub use types::{element_type, optional_type, type_name};
pub use words::{is_name, name, name_of, number_of};
