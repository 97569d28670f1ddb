//! A linear program over columns, solved in whole numbers: multipliers of its rows and weights of its columns.
//!
//! The ranges and signs of the answer are promised, and nothing of its quality.
#![tactic(auto)]

mod activity;
mod limits;
mod parts;
mod rounding;
mod screen;
mod solve;
mod start;
mod working;

pub use limits::{MAX_ENTRY, MAX_MULTIPLIER, MAX_USED_COST, MAX_WEIGHT, MAX_WORKING_ROWS};
pub use parts::{Column, Duals, Entry, Side};
pub use solve::solve_master;
