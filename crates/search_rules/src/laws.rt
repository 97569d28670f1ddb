ghost use Rattle.search_rules.specs.Laws.{
  FewCountNodesLaw,
  ListWallCutsOffLaw,
  ListWallPassesLaw,
  PlainTreeLaw,
  TableWallPassesLaw,
};

/// Where a table or a list of walks stops at a limit, the feasible partial walks of the model, or its rests, are more than
/// the limit. Of a list this holds at every place, also where the variables are not fixed.
pub fn walls_pass_limits()
    ensures table { TableWallPassesLaw }
    ensures list { ListWallPassesLaw }
    ensures cut_off { ListWallCutsOffLaw }
{}

/// The nodes below counts, with the items that stay open, are fewer than twice the points of the boxes. So below a list of
/// walks at the root, where an item stays open, the nodes are fewer than are enough.
pub fn trees_have_few_nodes()
    ensures counts { FewCountNodesLaw }
    ensures plain { PlainTreeLaw }
{}
