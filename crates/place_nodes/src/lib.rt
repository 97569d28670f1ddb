//! The node of an open place of a search, with the places that it opens, or the wall at which it stops.
#![tactic(auto)]

mod bound;
mod list;
mod priced_work;
mod prices;
mod proof;
mod split;
mod stops;
mod tabled;
mod task;
mod values;
mod wall;
mod work;

pub use priced_work::work_priced;
pub use wall::LabelWall;
pub use work::{Worked, work_place};
