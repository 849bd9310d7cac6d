//! The key of a leg: its bytes, by which legs are told apart, and the leg of a key.
#![tactic(auto)]

mod bytes;
mod claims;
mod codes;
mod decoding;
mod hashes;
mod legs;
mod steps;
mod types;

pub use decoding::decode;
pub use hashes::digest;
pub use legs::encode;

/// Want of memory. A list that is longer than a key can say is refused alike.
pub type NoMemory = std::alloc::AllocError;
