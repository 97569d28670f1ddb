ghost use Rattle.cert_rules.specs.Meaning.{LeastsAreTold};

/// The leasts of a proof are those of its tables, graph by graph.
pub fn proofs_have_leasts()
    ensures { LeastsAreTold }
{}
