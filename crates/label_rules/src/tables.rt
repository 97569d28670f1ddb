ghost use Rattle.label_rules.specs.Tables.{BackwardCoverLaw, ForwardCoverLaw, HalfPairLaw};

/// A list that is closed without a threshold has a dominator of the label of each partial walk, or of each rest.
pub fn covers_have_labels()
    ensures forward { ForwardCoverLaw }
    ensures backward { BackwardCoverLaw }
{}

/// A half pair represents each admitted walk: over an arc of the walk a label of the one list and a label of the other join,
/// at no more than the walk's cost.
pub fn half_pairs_represent()
    ensures { HalfPairLaw }
{}
