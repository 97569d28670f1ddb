//! Fixing by reduced costs: the arcs that no solution of a place uses which costs less than z.
#![tactic(auto)]

mod fixing;
mod joins;

pub use fixing::fixable;
