use path_graph::List;
use route_tasks::Stop;

/// The vehicles.
#[derive(Clone, Copy, Debug)]
pub struct Fleet {
    pub vehicles: u32,
    pub capacity: i32,
}

/// When a stop is served, and for how long.
#[derive(Clone, Copy, Debug)]
pub struct Times {
    pub ready: i32,
    pub due: i32,
    pub service: i32,
}

/// What the rows of a VRPTW text say so far.
#[derive(Debug, Drop)]
pub struct VrptwDraft {
    pub fleet: Option<Fleet>,
    pub depot: Option<Stop>,
    pub stops: List<Stop>,
}
