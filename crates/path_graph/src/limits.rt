/// The most vertices of a graph.
pub const MAX_VERTICES: usize = 1_024;
/// The most arcs of a graph.
pub const MAX_ARCS: usize = 60_000;
/// The most paths, counts included, of a graph, and of all graphs of a model.
pub const MAX_PATHS: u32 = 4_096;
/// The most packing sets. Each is a number below this.
pub const MAX_SETS: u16 = 512;
/// How far ends of windows and consumptions may be from 0.
pub const MAX_AMOUNT: i32 = 100_000_000;
