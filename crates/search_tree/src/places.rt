use path_graph::List;
use route_model::{Span, Spot};
use std::rc::Rc;
use walk_list::ListedWalk;

/// Walks that are listed at a place.
#[derive(Debug, Drop)]
pub struct Listing {
    pub spot: Spot,
    pub walks: List<ListedWalk>,
}

/// What is open: a place, or counts of the walks that are listed at one, each count in its box.
#[derive(Debug, Drop)]
pub enum OpenItem {
    Place(Spot),
    Counts(Rc<Listing>, List<Span>),
}

/// An open place of the tree, with its value: no solution there costs less.
#[derive(Debug, Drop)]
pub struct OpenPlace {
    pub item: OpenItem,
    pub value: i64,
}
