ghost use Rattle.label_rules.specs.Costs.{LabelCostLaw, UnitCostLaw};

/// A label costs the start, its arcs and visits, and the weight of each cut by its coefficient on the visits: and so, where
/// arcs cost by units, each unit, set and cut by how often it is used, visited and raised.
pub fn labels_cost_as_walks()
    ensures parts { LabelCostLaw }
    ensures units { UnitCostLaw }
{}
