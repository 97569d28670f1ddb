//! Readers of routing tasks: CVRP texts in the style of TSPLIB, and VRPTW texts in the style of Solomon.
#![tactic(auto)]

mod cvrp_draft;
mod cvrp_lines;
mod cvrp_reader;
mod cvrp_words;
mod fault;
mod line_reader;
mod stops;
mod vrptw_draft;
mod vrptw_lines;
mod vrptw_reader;
mod word_reader;
mod words;

pub use cvrp_reader::read_cvrp;
pub use fault::{RouteError, RouteFault, RouteKind};
pub use vrptw_reader::read_vrptw;
