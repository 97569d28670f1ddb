//! The exact search: it ends with a least plan, or that there is none, with a certificate; or at a limit, with its wall.
#![tactic(auto)]

mod choosing;
mod finish;
mod growing;
mod outcome;
mod rounds;
mod solving;
mod told;

pub use outcome::{Best, Limits, MAX_WORKERS, Outcome};
pub use place_nodes::LabelWall;
pub use solving::solve;
