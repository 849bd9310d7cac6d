//! Expressions, printed at the end of a text with brackets only where they are needed.
#![tactic(auto)]

mod expressions;

pub use expressions::{add_arguments, add_element, add_expr, add_exprs, add_number};
pub use token_printing::NoMemory;
