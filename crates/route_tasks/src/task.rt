use path_graph::List;

/// A place of a task: the depot, or a customer.
///
/// `ready` and `due` are the earliest and the latest time at which service may begin, `service` the time that it takes.
#[derive(Clone, Copy, Debug)]
pub struct Stop {
    pub number: u32,
    pub x: i32,
    pub y: i32,
    pub demand: i32,
    pub ready: i32,
    pub due: i32,
    pub service: i32,
}

/// How distances are rounded, and whether time is kept.
///
/// `Euclid` rounds to the nearest integer, and there is no time. `Tenths` are cut off to one decimal place and counted in
/// tenths, and so is time.
#[derive(Clone, Copy, Debug, PartialEq, Eq)]
pub enum Style {
    Euclid,
    Tenths,
}

/// A routing task: vehicles of equal capacity serve each customer once, from the depot and back.
#[derive(Debug, Drop)]
pub struct RouteTask {
    pub style: Style,
    pub vehicles: u32,
    pub capacity: i32,
    pub depot: Stop,
    pub stops: List<Stop>,
}
