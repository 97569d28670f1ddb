//! Proof trees over the counts of listed walks, grown depth first.
#![tactic(auto)]

mod costs;
mod grow;
mod growth;
mod points;
mod rounds;
mod terms;

pub use grow::grow_counts;
pub use growth::CountGrowth;
