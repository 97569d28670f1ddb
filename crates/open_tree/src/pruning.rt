ghost use Rattle.std.specs.Prelude.{◌≡◌, ◌+◌, ◌^◌, ◌<◌, ◌≤◌, ◌++◌, ◌∷◌, List, max, All, IfOk};
ghost use Rattle.open_tree.specs.Slots.{IsPruned, IsSmall, pruned};
ghost use Rattle.open_tree.specs.declared.pruning.Tested.{Tested as TestedOf};

use crate::slots::Slot;
use path_graph::NoMemory;
use std::alloc::Global;

/// One slot after a test: what stands there now, how many items the old node opened, and how many of the first trees
/// below it go.
#[derive(Debug, Drop)]
pub struct Tested<I, N> {
    pub slot: Slot<I, N>,
    pub children: usize,
    pub skip: usize,
}

/// Keeps a slot, or leaves it out where trees are to be skipped; how many trees are to be skipped from there on.
fn keep_tested<I: Drop, N: Drop>(
    kept: &mut Vec<Slot<I, N>>,
    skip: usize,
    tested: Tested<I, N>,
) -> Result<usize, NoMemory>
    requires small { IsSmall tested }
    requires room { skip + 1 < 2 ^ 64 }
    ensures stays { IfOk result (λ next. (ahead : List (TestedOf I N))
        → kept.old.items ++ pruned skip (tested ∷ ahead) ≡ kept.new.items ++ pruned next ahead) }
    ensures small { IfOk result (λ next. next ≤ max (skip + 1) 2) }
{
    if skip > 0 {
        return Ok(skip - 1 + tested.children);
    }
    kept.push(tested.slot)?;
    Ok(tested.skip)
}

/// Leaves out, in one pass, what stands below nodes that now close their items.
pub fn prune<I: Drop, N: Drop>(
    alloc: Global,
    tested: Vec<Tested<I, N>>,
) -> Result<Vec<Slot<I, N>>, NoMemory>
    requires { All IsSmall tested.items }
    ensures { IfOk result (λ kept. IsPruned tested.items kept.items) }
{
    let mut kept = Vec::new(alloc);
    let mut skip = 0;
    for one in tested {
        skip = keep_tested(&mut kept, skip, one)?;
    }
    Ok(kept)
}
