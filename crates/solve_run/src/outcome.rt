use certificate::{Cert, Node};
use path_graph::List;
use place_nodes::LabelWall;
use route_model::Plan;

/// The greatest number of workers.
pub const MAX_WORKERS: u32 = 64;

/// The limits of a search: workers (one works so far), labels of a table or lines of a listing, nodes of the tree.
#[derive(Clone, Copy, Debug, PartialEq, Eq)]
pub struct Limits {
    pub workers: u32,
    pub labels: u32,
    pub nodes: u32,
}

/// The best plan that was found, with its cost.
#[derive(Debug, Drop)]
pub struct Best {
    pub cost: i64,
    pub plan: Plan,
}

/// How a search ends.
///
/// At a limit the wall is kept: why the labels were not enough, or the tree with its open places (line 0) and made nodes (line
/// 1). No solution costs less than the bound.
#[derive(Drop)]
pub enum Outcome {
    Optimal {
        cost: i64,
        plan: Plan,
        cert: Cert,
    },
    Infeasible {
        cert: Cert,
    },
    LabelLimit {
        wall: LabelWall,
        best: Option<Best>,
        bound: i64,
    },
    NodeLimit {
        nodes: List<Node>,
        best: Option<Best>,
        bound: i64,
    },
    Memory,
}
