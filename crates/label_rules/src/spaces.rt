ghost use Rattle.label_rules.specs.SpaceLaws.{CostChangeLaw, DominanceTestLaw, ExtensionTestLaw, LabelTestLaw, LawfulLaw, LevelRisesLaw};

/// The labels of either direction, with or without a threshold, are a lawful space.
pub fn labels_are_lawful()
    ensures { LawfulLaw }
{}

/// The tests of the space are exact: which labels are of it, which dominates which, and what an extension gives.
pub fn tests_are_exact()
    ensures labels { LabelTestLaw }
    ensures dominance { DominanceTestLaw }
    ensures extensions { ExtensionTestLaw }
{}

/// Over each extension the level rises by at least 1, and the cost changes by at most 2^73: so costs keep the range of their
/// level.
pub fn levels_rise()
    ensures level { LevelRisesLaw }
    ensures cost { CostChangeLaw }
{}
