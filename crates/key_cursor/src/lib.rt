//! The bytes of a key that are still to be read, and what is read from their front: bytes, numbers and lists of numbers.
#![tactic(auto)]

mod cursor;
mod end;
mod numbers;

pub use cursor::KeyCursor;
pub use end::ReadEnd;
pub use numbers::read_numbers;
