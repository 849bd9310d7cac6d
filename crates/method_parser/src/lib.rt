//! Methods, read token by token by recursive descent: their parameters, contracts and bodies.
#![tactic(auto)]

mod bodies;
mod methods;
mod params;

pub use methods::method;
pub use params::typed_name;
