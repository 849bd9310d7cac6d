//! Where an expression stands without brackets as it is printed: plainly, wherever it may, and lightly, where brackets do not make what
//! it adds to the weights of a text less.
#![tactic(auto)]

mod choices;
mod heft;
mod hefts;
mod standing;
mod weights;

pub use choices::{
    left_stands, right_stands, stands_before_arguments, stands_before_dot, stands_before_element,
    stands_first,
};
pub use standing::{stands_as_head, stands_behind_prefix};
