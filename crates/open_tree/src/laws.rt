ghost use Rattle.std.specs.Prelude.{List, ℤ};
ghost use Rattle.open_tree.specs.Laws.{PruneLaw, PutLaw, ReachLaw, WeakenLaw, WholeLaw, rules_of};

/// Which node may stand at an item, and the items that it opens.
pub trait TreeRules<I, N> {
    ghost Fits: { I → N → Type 0 };

    ghost children: { I → N → List I };
}

/// What lies at items, with its cost.
pub trait Sought<I> {
    ghost Has: { I → ℤ → Type 0 };
}

/// An open place may give way to a tree at its item.
pub fn open_places_give_way<I, N, R: TreeRules<I, N>>()
    ensures { PutLaw (rules_of R.Fits R.children) }
{}

/// Where no item is open, the made nodes are whole trees.
pub fn closed_trees_are_whole<I, N, R: TreeRules<I, N>>()
    ensures { WholeLaw (rules_of R.Fits R.children) }
{}

/// What costs less than z lies at an open place.
pub fn open_places_have_the_rest<I, N, R: TreeRules<I, N>, S: Sought<I>>()
    ensures { ReachLaw (rules_of R.Fits R.children) S.Has }
{}

/// A tree whose nodes are tested, and pruned below those that now close their items, is a tree again.
pub fn pruned_trees_are_trees<I, N, R: TreeRules<I, N>>()
    ensures { PruneLaw (rules_of R.Fits R.children) }
{}

/// A tree is one by rules that allow more.
pub fn rules_may_allow_more<I, N, R: TreeRules<I, N>, S: TreeRules<I, N>>()
    ensures { WeakenLaw (rules_of R.Fits R.children) (rules_of S.Fits S.children) }
{}
