ghost use Rattle.std.specs.Prelude.{◌≡◌, ◌+◌, ◌<◌, ◌++◌, [], length, take, drop, reverse, IfOk};
ghost use Rattle.open_tree.specs.Open.{slots_of};

use crate::slots::Slot;
use path_graph::NoMemory;
use std::alloc::Global;

/// Made nodes as slots.
fn made_slots<I: Drop, N: Drop>(alloc: Global, nodes: Vec<N>) -> Result<Vec<Slot<I, N>>, NoMemory>
    ensures { IfOk result (λ slots. slots.items ≡ slots_of nodes.items []) }
{
    let mut slots = Vec::new(alloc);
    for node in nodes {
        slots.push(Slot::Made(node))?;
    }
    Ok(slots)
}

/// A tree of made nodes, and behind them the items that they leave open; `rest` has the last of them first.
fn tree_slots<I: Drop, N: Drop>(
    alloc: Global,
    nodes: Vec<N>,
    mut rest: Vec<I>,
) -> Result<Vec<Slot<I, N>>, NoMemory>
    ensures { IfOk result (λ slots. slots.items ≡ slots_of nodes.items (reverse rest.items)) }
{
    let mut slots = made_slots(alloc, nodes)?;
    while let Some(item) = rest.pop() {
        slots.push(Slot::Open(item))?;
    }
    Ok(slots)
}

/// Puts nodes, and behind them the items that they leave open (`rest`, the last of them first), in the place of an open item.
pub fn put<I: Drop, N: Drop>(
    alloc: Global,
    mut slots: Vec<Slot<I, N>>,
    at: usize,
    nodes: Vec<N>,
    rest: Vec<I>,
) -> Result<Vec<Slot<I, N>>, NoMemory>
    requires { at < length slots.items }
    ensures { IfOk result (λ new. new.items
        ≡ take at slots.items ++ (slots_of nodes.items (reverse rest.items) ++ drop (at + 1) slots.items)) }
{
    let mut tree = tree_slots(alloc, nodes, rest)?;
    let mut after = slots.split_off(at + 1)?;
    slots.truncate(at);
    slots.append(&mut tree)?;
    slots.append(&mut after)?;
    Ok(slots)
}
