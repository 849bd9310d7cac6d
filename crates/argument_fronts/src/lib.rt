//! What stands at the front of the tokens of an argument: signs, texts, types, numbers, the fronts of records, and what parts the members of a list.
//! Each answer is the only one.
#![tactic(auto)]

mod cursor;
mod members;
mod numbers;
mod types;

pub use cursor::{Written, behind_sign, behind_text};
pub use members::{MemberEnd, behind_member, record_head};
pub use numbers::{Number, number_at};
pub use types::{behind_type, names_record};
