//! The walks that a column generation has found, and their columns.
//!
//! No walk is kept twice. What a column has of variables, rows and packing sets is kept with its walk.
#![tactic(auto)]

mod amounts;
mod column;
mod counts;
mod entries;
mod index;
mod kept;
mod limits;
mod pool;
mod putting;

pub use kept::KeptWalk;
pub use limits::{MAX_WALK_ARCS, MAX_WALKS};
pub use pool::{Known, Pool};
