//! A walk with what does not change from one column of it to the next.

use fixed_master::Entry;
use path_graph::List;

/// A walk, its visits in order, its cost, and its entries of variables, rows and packing sets.
#[derive(Debug, Drop)]
pub struct KeptWalk {
    pub graph: u32,
    pub arcs: List<u32>,
    pub visits: List<Option<u16>>,
    pub cost: i64,
    pub entries: List<Entry>,
}
