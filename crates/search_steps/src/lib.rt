//! One step of a search at an open place, and the plain tree that is tried before a search stops at a limit of nodes.
#![tactic(auto)]

mod counts;
mod node_trees;
mod plain;
mod stepping;

pub use plain::{Plain, plain_tree};
pub use stepping::{Stepped, grow_listed, grow_place};
