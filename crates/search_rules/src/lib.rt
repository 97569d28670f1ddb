//! What a limit is passed by where a search stops at it: so a limit that is great enough stops no search.
//!
//! Each law is the contract of a function that does nothing else, so that it is proved with the crate.
#![tactic(auto)]

mod laws;

pub use laws::{trees_have_few_nodes, walls_pass_limits};
