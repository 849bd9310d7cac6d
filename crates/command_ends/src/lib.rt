//! How the commands of `logika` end: their statuses, what stops them, and the lines of the journal.
#![tactic(auto)]

mod status;
mod stop;
mod writing;

pub use status::{Status, conclude};
pub use stop::Stop;
pub use writing::write_pieces;
