ghost use Rattle.proof_rules.specs.PrefixLaws.{
  CompleteFallsLaw,
  DemandedStepLaw,
  ElementaryStepLaw,
  EmptyTreeLaw,
  ListedLaw,
  OneNodeLaw,
  OnePrefixLaw,
  PartialWalksLaw,
  PrefixLabelLaw,
  PrefixOfLaw,
  TreeGrowsLaw,
  WalksDifferLaw,
  WalksListedLaw,
};

/// A complete tree lists each elementary walk that costs no more than the limit, and stays complete where the limit falls.
pub fn complete_trees_list_walks()
    ensures listed { ListedLaw }
    ensures falls { CompleteFallsLaw }
{}

/// The label of each prefix in a tree is defined: no memory refuses it.
pub fn prefixes_have_labels()
    ensures { PrefixLabelLaw }
{}

/// Each node of a tree has one prefix, which is read off the steps and which no other node has.
pub fn nodes_have_one_prefix()
    ensures some { PrefixOfLaw }
    ensures same { OnePrefixLaw }
    ensures apart { OneNodeLaw }
{}

/// The walks of a tree are those that it lists, and no two of them are equal.
pub fn trees_have_walks()
    ensures listed { WalksListedLaw }
    ensures apart { WalksDifferLaw }
{}

/// A tree has as many different elementary partial walks as steps.
pub fn trees_have_partial_walks()
    ensures { PartialWalksLaw }
{}

/// Elementary arcs go on over an open arc that no window refuses and that enters no set again; each demanded arc is one.
pub fn prefixes_go_on()
    ensures step { ElementaryStepLaw }
    ensures demanded { DemandedStepLaw }
{}

/// A tree begins without steps, and stays one over each new step that leaves its prefix elementary.
pub fn trees_grow()
    ensures empty { EmptyTreeLaw }
    ensures grows { TreeGrowsLaw }
{}
