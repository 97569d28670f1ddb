//! Nodes of a proof tree as a search makes them: each with the bound by which it is tested again when a better solution is
//! found.
#![tactic(auto)]

mod node;
mod retest;
mod zeros;

pub use node::MadeNode;
pub use retest::{closing, closing_bound};
pub use zeros::no_multipliers;
