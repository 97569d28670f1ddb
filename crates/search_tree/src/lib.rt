//! The tree of a search: places that are open, nodes that were made, the best plan that was found, and the cost to beat.
//!
//! It knows nothing of how nodes are made.
#![tactic(auto)]

mod bounds;
mod growing;
mod laws;
mod places;
mod retesting;
mod search;

pub use bounds::open_bound;
pub use growing::{Grown, give_way};
pub use laws::searches_are_walls;
pub use places::{Listing, OpenItem, OpenPlace};
pub use retesting::retest;
pub use search::{Search, begin, with_best};
