//! Multipliers on the quantities of a model: the sum of the terms, reduced costs, and places of a search.
//!
//! Whatever the multipliers, the terms and the reduced costs of its walks bound the cost of a solution from below.
#![tactic(auto)]

mod arcs;
mod base;
mod pricing;
mod roots;
mod units;

pub use base::MAX_CUTS;
pub use pricing::{priced, solutions_keep_cuts};
pub use roots::root_spot;
