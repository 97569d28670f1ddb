ghost use Rattle.proof_rules.specs.Counts.{CountMostLaw, CountsLaw, PlanOfLaw};

/// A plan of listed walks has counts, one for each walk of the list, with as much of every quantity; and each count is at
/// most what they have of a quantity that its walk has and no walk lacks.
pub fn plans_have_counts()
    ensures same { CountsLaw }
    ensures most { CountMostLaw }
{}

/// The plan of counts takes listed walks, each at least once, and has as much of every quantity.
pub fn counts_have_plans()
    ensures { PlanOfLaw }
{}
