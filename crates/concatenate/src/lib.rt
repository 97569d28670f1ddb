//! Joins of labels of partial walks and labels of rests over the arc between them, and the least of them.
#![tactic(auto)]

mod joins;
mod least;
mod lists;

pub use joins::join_cost;
pub use least::{all_joins_above, least_join};
