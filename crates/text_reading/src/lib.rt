//! The texts that a command reads, of a source or of files of a folder, within the limits.
#![tactic(auto)]

mod folder_texts;
mod gauge;
mod limits;
mod reading;
mod texts;

pub use limits::{LIMITS, Limits};
pub use reading::{ReadEnd, read_text};
pub use texts::{TextsEnd, name_at, read_texts};
