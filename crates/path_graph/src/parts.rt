/// The least and the greatest value of a resource at a vertex, both allowed.
#[derive(Clone, Copy, Debug, PartialEq, Eq)]
pub struct Window {
    pub low: i32,
    pub high: i32,
}

/// A vertex: the packing set that it is in, if any, and a window for each resource.
///
/// Positions 0 and 1 are the main resources, 2 to 5 the secondary ones. A position with no resource has window 0..0.
#[derive(Clone, Copy, Debug, PartialEq, Eq)]
pub struct Vertex {
    pub set: Option<u16>,
    pub windows: [Window; 6],
}

/// An arc: the vertices that it leaves and enters, and what it consumes of each resource.
///
/// The positions are those of `Vertex`. A position with no resource has need 0.
#[derive(Clone, Copy, Debug, PartialEq, Eq)]
pub struct GraphArc {
    pub tail: u32,
    pub head: u32,
    pub needs: [i32; 6],
}

/// Where walks begin and end, how many paths there may be, and how many resources are main or secondary.
///
/// `low` and `high` bound the number of paths of the graph, counts included.
#[derive(Clone, Copy, Debug, PartialEq, Eq)]
pub struct Ends {
    pub source: u32,
    pub sink: u32,
    pub low: u32,
    pub high: u32,
    pub mains: u8,
    pub seconds: u8,
}

/// A value of each resource, at the positions of `Vertex`.
#[derive(Clone, Copy, Debug, PartialEq, Eq)]
pub struct Values {
    pub at: [i32; 6],
}
