//! The tables of labels of every graph at a place, and the cheap walks that they show.
#![tactic(auto)]

mod cheap;
mod every_graph;
mod fields;
mod filled;
mod graph_table;
mod half_table;
mod halves;
mod join_ranks;
mod joined;
mod joined_arcs;
mod ranking;
mod sink;
mod walks;

pub use cheap::cheap_walks;
pub use every_graph::{TablesOut, tables};
pub use half_table::HalfPair;
pub use halves::{HalvesOut, half_tables};
pub use joined::joined_walks;
