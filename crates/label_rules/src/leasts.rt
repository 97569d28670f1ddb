ghost use Rattle.label_rules.specs.Leasts.{ArcJoinLaw, LeastLaw, LimitFallsLaw, TableCoversLaw, UnusedArcLaw};

/// A closed table covers what its form says: the laws ask for no more than that.
pub fn tables_cover()
    ensures { TableCoversLaw }
{}

/// The least of a table, where there is one, is at most the cost of each admitted walk; where there is none, no walk is
/// admitted.
pub fn leasts_are_at_most()
    ensures { LeastLaw }
{}

/// Over each arc of an admitted walk, labels of two whole lists join, at no more than its cost.
pub fn arcs_have_joins()
    ensures { ArcJoinLaw }
{}

/// Where every join over an arc is above a limit, no admitted walk within the limit uses the arc; nor where the limit falls.
pub fn arcs_above_are_unused()
    ensures unused { UnusedArcLaw }
    ensures falls { LimitFallsLaw }
{}
