use path_graph::{List, SetBits};
use route_model::{Mult, Plan, Split};

/// A plan with its cost.
#[derive(Debug, Drop)]
pub struct FoundPlan {
    pub cost: i64,
    pub plan: Plan,
}

/// What rounds of column generation find at a place: multipliers at the scale of 65,536 to a unit of cost, none of a cut; the
/// near lists of its labels, as the lines of a proof tell them; where the place is split next, if a box is no point; and a plan
/// that costs less than the cost to beat, if one was found.
#[derive(Debug, Drop)]
pub struct Found {
    pub mult: Mult,
    pub near: List<(u32, u32, SetBits)>,
    pub split: Option<Split>,
    pub best: Option<FoundPlan>,
}
