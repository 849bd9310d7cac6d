//! The typed program and the legs of its methods: what plain data they are, an expression's shape, and how to make one.
#![tactic(auto)]

mod expression;
mod leg;
mod make;
mod program;
mod shape;
mod typed;

pub use expression::{Expr, NodeNo};
pub use leg::{Item, Leg, Legs};
pub use program::{Code, FieldTy, Global, Method, NodePlace, Noted, RecordTy};
pub use program_trees::{Answer, Kind, Reason};
pub use shape::ExprShape;
pub use typed::Typed;

/// Want of memory.
pub type NoMemory = std::alloc::AllocError;
