use path_graph::List;
use route_model::{Quantity, Span, Spot};

/// A walk that is listed.
#[derive(Debug, Drop)]
pub struct Listed {
    pub graph: u32,
    pub arcs: List<u32>,
}

/// What a node keeps on the stack for the time after the nodes below it.
#[derive(Debug, Drop)]
pub enum Frame {
    /// With its second box, the upper part, the place is open, and after it the first one comes back.
    Upper(Quantity, Span, Span),
    /// The box comes back.
    Whole(Quantity, Span),
    /// The arc is not dropped any more.
    Dropped(u32, u32),
    /// The same of the box of a count.
    UpperCount(u32, Span, Span),
    /// The box of the count comes back.
    WholeCount(u32, Span),
    /// The walks and boxes from before the list come back.
    Listing(List<Listed>, List<Span>),
}

/// Which item is read: the place itself, or the counts of the listed walks there.
#[derive(Clone, Copy, Debug, PartialEq, Eq)]
pub enum Open {
    Place,
    Counts,
}

/// How far a proof tree is read: the place, the walks that are listed there with the boxes of their counts, and what is to
/// come back above. No box list is copied at a node.
#[derive(Debug, Drop)]
pub struct Tree {
    pub spot: Spot,
    pub walks: List<Listed>,
    pub boxes: List<Span>,
    pub frames: List<Frame>,
}
