ghost use Rattle.label_rules.specs.Dominance.{DominatorsJoinLaw, ExtensionLaw, ReflexiveLaw, TransitiveLaw, WalkMetLaw};

/// Dominance is reflexive and transitive.
pub fn dominance_is_an_order()
    ensures reflexive { ReflexiveLaw }
    ensures transitive { TransitiveLaw }
{}

/// Where a label extends over an arc, so does its dominator, to a label that dominates.
///
/// This rests on the excess: with one cut of weight 5, a label of state 1 and cost 0 must not dominate one of state 0 and
/// cost 0, since the next visit may make the first pay 5 and not the second.
pub fn extensions_keep_dominance()
    ensures { ExtensionLaw }
{}

/// Where labels join over an arc, labels that dominate them do, at no greater cost. So at each of its arcs a walk is met by
/// labels that dominate those of its parts.
pub fn dominators_join()
    ensures joins { DominatorsJoinLaw }
    ensures walks { WalkMetLaw }
{}
