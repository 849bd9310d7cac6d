//! Values of a run: numbers of 128 bits, truth values, sequences and records, what plain data they are, and the default of each type.
#![tactic(auto)]

mod changing;
mod defaults;
mod equality;
mod held;
mod parts;
mod reading;
mod value;

pub use defaults::default_of;
pub use equality::same_type;
pub use held::Held;
pub use reading::place_within;
pub use value::Value;

/// Want of memory.
pub type NoMemory = std::alloc::AllocError;
