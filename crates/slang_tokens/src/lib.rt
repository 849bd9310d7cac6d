//! The tokens of a text that its grammar reads: each with its place, without the newlines that end no statement, up to
//! the first that no text holds.
#![tactic(auto)]

mod kinds;
mod lexeme;
mod lines;
mod places;
mod read;
mod weight;

pub use lexeme::Lexeme;
pub use read::{NESTS_TOO_DEEP, Tokens, TokensEnd, read_tokens};
pub use weight::light_len;
