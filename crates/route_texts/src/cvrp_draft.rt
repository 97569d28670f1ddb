use crate::stops::Point;
use path_graph::List;

/// The four keys that count.
#[derive(Clone, Copy, Debug, PartialEq, Eq)]
pub enum Key {
    Type,
    Distances,
    Dimension,
    Capacity,
}

/// The three sections.
#[derive(Clone, Copy, Debug, PartialEq, Eq)]
pub enum Section {
    Points,
    Demands,
    Depot,
}

/// A node of which a line may have told where it lies, and another one its demand.
#[derive(Clone, Copy, Debug)]
pub struct Node {
    pub number: u32,
    pub point: Option<Point>,
    pub demand: Option<i32>,
}

/// Which sections have begun.
#[derive(Clone, Copy, Debug)]
pub struct Begun {
    pub points: bool,
    pub demands: bool,
    pub depot: bool,
}

/// What the lines of a CVRP text say so far.
///
/// There are nodes once their number is read. `section` is the section that began last. The depot's section may be
/// `closed` by its last line.
#[derive(Debug, Drop)]
pub struct CvrpDraft {
    pub has_type: bool,
    pub has_distances: bool,
    pub capacity: Option<i32>,
    pub nodes: List<Node>,
    pub section: Option<Section>,
    pub begun: Begun,
    pub depot: Option<u32>,
    pub closed: bool,
}
