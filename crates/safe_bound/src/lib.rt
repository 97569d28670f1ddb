//! The bound of a place and the limit of a walk, which any multipliers prove.
#![tactic(auto)]

mod bounds;
mod graphs;
mod limits;

pub use bounds::{Bound, bound_value, closes};
pub use limits::walk_limit;
