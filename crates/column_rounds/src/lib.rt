//! Rounds of column generation at a place: the multipliers that prove its bound best, where it is split, and a plan.
#![tactic(auto)]

mod adding;
mod columns;
mod ending;
mod found;
mod lines;
mod master;
mod mults;
mod nearest;
mod plans;
mod rounds;
mod shown;
mod sides;
mod state;
mod task;

pub use columns::{Columns, begin_columns};
pub use found::{Found, FoundPlan};
pub use rounds::find_columns;
