//! The types of the claims of a leg, worked out from their parts: a claim is well typed exactly where there is one.
#![tactic(auto)]

mod forms;
mod judging;
pub mod laws;
mod scope;
mod view;

pub use forms::has_type;
pub use judging::type_of;
pub use scope::Scope;
pub use view::TypeView;
