use ng_sets::Near;
use path_graph::List;
use route_model::Priced;

/// What was made of a proof when it was checked: its prices at the place, its near lists, and the least of each graph.
#[derive(Debug, Drop)]
pub struct Checked {
    pub priced: Priced,
    pub near: Near,
    pub leasts: List<Option<i128>>,
}
