ghost use Rattle.cert_check.specs.Laws.{FaultRefusesLaw, OneFaultLaw};

/// A certificate has at most one first fault, and one with a fault is not accepted.
pub fn first_faults()
    ensures one { OneFaultLaw }
    ensures refuses { FaultRefusesLaw }
{}
