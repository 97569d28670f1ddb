//! Prefix trees that list the walks of a place, up to a limit on their lines, and the walks that they list.
#![tactic(auto)]

mod grow;
mod heads;
mod listing;
mod prefixes;
mod task;
mod walks;

pub use listing::{Listed, list_walks};
pub use walks::{ListedWalk, listed_walks};
