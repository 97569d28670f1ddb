//! Whether a tree of prefixes of walks is complete, and the walks that it lists.
#![tactic(auto)]

mod complete;
mod heads;
mod joining;
mod lines;
mod nodes;
mod walks;

pub use complete::is_complete;
pub use walks::walks_of;
