ghost use Rattle.std.specs.Prelude.{◌≡◌, [], length, IfOk, MatchOption};
ghost use Rattle.open_tree.specs.Open.{opens, mades};
ghost use Rattle.open_tree.specs.Slots.{IsOpenAt};

use path_graph::NoMemory;
use std::alloc::Global;

/// An open place of a tree, with its item, or a made node.
#[derive(Debug, Drop, PartialEq, Eq)]
pub enum Slot<I, N> {
    Open(I),
    Made(N),
}

/// The first open place.
pub fn first_open<I, N>(slots: &[Slot<I, N>]) -> Option<usize>
    ensures { MatchOption result (opens slots.now ≡ []) (λ at. (i : I) × IsOpenAt slots.now at i) }
{
    for (at, slot) in slots.iter().enumerate() {
        if let Slot::Open(_) = slot {
            return Some(at);
        }
    }
    None
}

/// How many nodes are made.
pub fn made_count<I, N>(slots: &[Slot<I, N>]) -> usize
    ensures { result ≡ length (mades slots.now) }
{
    let mut count = 0;
    for slot in slots {
        if let Slot::Made(_) = slot {
            count += 1;
        }
    }
    count
}

/// The made nodes in order; the open places are dropped.
pub fn made_nodes<I: Drop, N: Drop>(
    alloc: Global,
    slots: Vec<Slot<I, N>>,
) -> Result<Vec<N>, NoMemory>
    ensures { IfOk result (λ nodes. nodes.items ≡ mades slots.items) }
{
    let mut nodes = Vec::new(alloc);
    for slot in slots {
        if let Slot::Made(node) = slot {
            nodes.push(node)?;
        }
    }
    Ok(nodes)
}
