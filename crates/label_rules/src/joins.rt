ghost use Rattle.label_rules.specs.Joins.{CutPointLaw, JoinCostLaw};

/// The label of a walk is defined exactly where, cut at any of its arcs, the labels of both parts are defined and join over
/// the arc.
pub fn walks_are_cut_anywhere()
    ensures { CutPointLaw }
{}

/// The join then costs as much as the walk, cuts included.
pub fn joins_cost_as_walks()
    ensures { JoinCostLaw }
{}
