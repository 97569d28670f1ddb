//! Places of tests, written as lines: multipliers, cuts, near lists and boxes, with tests of whether they fit.
#![tactic(auto)]

pub mod fitting;
pub mod said;
