ghost use Rattle.proof_rules.specs.ListWalls.{ListWallLaw};
ghost use Rattle.proof_rules.specs.NodeWalls.{OpenValueLaw, WallBoundLaw, WallTreeLaw};
ghost use Rattle.proof_rules.specs.OpenTrees.{RoundedUpLaw};
ghost use Rattle.proof_rules.specs.TableWalls.{FilledLaw, TableWallLaw, TableWalksLaw};

/// A bound divided by 65,536 and rounded up is at most each cost that it bounds.
pub fn rounding_keeps_bounds()
    ensures { RoundedUpLaw }
{}

/// Of a tree with open places: each solution that costs less than z costs at least the value of some open place.
pub fn open_values_bound_solutions()
    ensures { OpenValueLaw }
{}

/// The nodes that a search made up to its limit, with the places that it left open, are such a tree; so no solution costs
/// less than the least value of its open places, or than the best solution where that costs less.
pub fn walls_bound_solutions()
    ensures tree { WallTreeLaw }
    ensures bound { WallBoundLaw }
{}

/// Where a list of walks stops at a limit of labels, there are more different feasible partial walks than the limit.
pub fn list_walls_show_walks()
    ensures { ListWallLaw }
{}

/// A table that was filled up to its limit is a wall: so many entries, each with a walk of its own, and one more label is
/// wanted; also where a threshold left extensions out.
pub fn filled_tables_are_walls()
    ensures { FilledLaw }
{}

/// Where a table stops at a limit of labels, there are more different lists of choices from the root than the limit, each
/// extension defined; and so more different partial walks, or rests, of the graph whose labels are defined.
pub fn table_walls_show_walks()
    ensures choices { TableWallLaw }
    ensures walks { TableWalksLaw }
{}
