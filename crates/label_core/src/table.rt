use path_graph::List;

/// Where an entry stands: a cell, and a place in the cell's list, both from 0.
#[derive(Clone, Copy, Debug, PartialEq, Eq)]
pub struct Place {
    pub cell: u32,
    pub index: u32,
}

/// The choice over which an entry's label came from another entry's.
#[derive(Clone, Copy, Debug, PartialEq, Eq)]
pub struct Origin {
    pub parent: Place,
    pub arc: u32,
}

/// What became of an extension: it is refused, or the entry there dominates it.
#[derive(Clone, Copy, Debug, PartialEq, Eq)]
pub enum Fate {
    Void,
    At(Place),
}

/// How far the work on an entry is. A claimed entry has the number of its claim, and one that is
/// done has a fate for each of its choices.
#[derive(Debug, Drop)]
pub enum Turn {
    Fresh,
    Claimed(u32),
    Done(List<Fate>),
}

/// A label in a table. The root has no origin. An entry is kept until it is gone: then it has the
/// place of an entry that took it away.
#[derive(Debug, Drop)]
pub struct Entry<L> {
    pub label: L,
    pub origin: Option<Origin>,
    pub turn: Turn,
    pub gone: Option<Place>,
}

/// The entries of each cell, in the order in which they came. Entries never move.
#[derive(Debug, Drop)]
pub struct Table<L> {
    pub cells: List<List<Entry<L>>>,
}
