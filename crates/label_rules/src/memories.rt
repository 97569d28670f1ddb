ghost use Rattle.label_rules.specs.Memories.{MemoriesMeetLaw, MemoriesReversedLaw};

/// Visits are accepted forward exactly where they are backward, and exactly where each part of them is from its own end and
/// the two memories have no set in common. Backward is forward over the visits in the other order.
///
/// The ng-relaxation is that of Baldacci, Mingozzi and Roberti (2011).
pub fn memories_meet()
    ensures meet { MemoriesMeetLaw }
    ensures reversed { MemoriesReversedLaw }
{}
