ghost use Rattle.proof_rules.specs.ValidLaws.{
  NodeFallsLaw,
  NodeLaw,
  OpenLaw,
  PreorderLaw,
  SoundLaw,
  TreeFallsLaw,
  TreeLaw,
  ValidLaw,
};

/// A valid certificate proves its claim: its plan is a solution of its cost and none costs less, or there is none.
pub fn valid_certificates_hold()
    ensures { ValidLaw }
{}

/// Each plan below z of an item is, by its cost, one of an item that its node opens. So where there is none below z, there
/// is none at the item.
pub fn nodes_keep_cheap_plans()
    ensures descends { NodeLaw }
    ensures sound { SoundLaw }
{}

/// So each plan below z of an item is one of an item that stays open; and where none does, no plan costs less than z.
pub fn plans_below_stay_open()
    ensures open_items { OpenLaw }
    ensures none { TreeLaw }
{}

/// What stands against a number stands against each that is no greater.
pub fn numbers_may_fall()
    ensures node { NodeFallsLaw }
    ensures tree { TreeFallsLaw }
{}

/// Nodes that leave nothing open are those of ordinary trees, each before those below it.
pub fn nodes_are_in_preorder()
    ensures { PreorderLaw }
{}
