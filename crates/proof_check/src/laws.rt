ghost use Rattle.proof_check.specs.Demands.{DemandsLaw, FaultLaw};

/// The demands on a proof together ask that it is valid, and where one is not met, it is not.
pub fn demands_are_the_proof()
    ensures demands { DemandsLaw }
    ensures faults { FaultLaw }
{}
