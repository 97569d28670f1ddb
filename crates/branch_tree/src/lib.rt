//! How a search branches: which box is split next, and which open node is worked next.
#![tactic(auto)]

mod choice;
mod queue;

pub use choice::choose_split;
pub use queue::Queue;
