ghost use Rattle.proof_rules.specs.Places.{ReducedCostLaw, WalksAdmittedLaw, WalksElementaryLaw};
ghost use Rattle.proof_rules.specs.Proofs.{BoundLaw, LeastsLaw, LimitLaw};

/// What a label of a place costs is the reduced cost of its arcs.
pub fn labels_cost_as_reduced()
    ensures { ReducedCostLaw }
{}

/// The walks of a solution of a place use no shut arc and visit no packing set twice, so each is admitted.
pub fn walks_are_admitted()
    ensures elementary { WalksElementaryLaw }
    ensures admitted { WalksAdmittedLaw }
{}

/// The leasts of a proof are at most the reduced costs of the walks of each solution of its place. So its bound is at most
/// the scaled cost of such a solution, and a walk of one that costs less than z is within the limit of its graph.
pub fn proofs_bound_places()
    ensures leasts { LeastsLaw }
    ensures bound { BoundLaw }
    ensures limit { LimitLaw }
{}
