ghost use Rattle.std.specs.Prelude.{◌≡◌, ◌≤◌, true, All, Contains, IfOk};
ghost use Rattle.std.specs.List.{AllZip};
ghost use Rattle.search_tree.specs.Retested.{IsRetested, IsRetestedNode};
ghost use Rattle.search_tree.specs.Search.{IsSearch, made_in, opens_in};

use crate::places::OpenPlace;
use crate::search::Search;
use made_nodes::{MadeNode, closing};
use open_tree::{Slot, Tested, prune};
use path_graph::NoMemory;
use route_model::Model;
use std::alloc::Global;

/// A slot that stays, with all of so many trees below it.
fn staying(slot: Slot<OpenPlace, MadeNode>, children: usize) -> Tested<OpenPlace, MadeNode>
    ensures slot { result.slot ≡ slot }
    ensures children { result.children ≡ children }
    ensures skip { result.skip ≡ 0 }
{
    Tested {
        slot,
        children,
        skip: 0,
    }
}

/// A made node stays where its bound leaves its item open; else one that closes the item stands there, and all trees below
/// it go.
fn retested_node(
    alloc: Global,
    model: &Model,
    z: i64,
    node: MadeNode,
) -> Result<Tested<OpenPlace, MadeNode>, NoMemory>
    ensures { IfOk result (IsRetestedNode model.now z node) }
{
    let children = node.child_count();
    if node.stays_open(z) {
        return Ok(staying(Slot::Made(node), children));
    }
    Ok(Tested {
        slot: Slot::Made(closing(alloc, model, node)?),
        children,
        skip: children,
    })
}

/// A slot after its test; an open place stays open.
fn retested_slot(
    alloc: Global,
    model: &Model,
    z: i64,
    slot: Slot<OpenPlace, MadeNode>,
) -> Result<Tested<OpenPlace, MadeNode>, NoMemory>
    ensures { IfOk result (IsRetested model.now z slot) }
{
    match slot {
        Slot::Open(place) => Ok(staying(Slot::Open(place), 0)),
        Slot::Made(node) => retested_node(alloc, model, z, node),
    }
}

/// All slots after their tests.
fn retested_slots(
    alloc: Global,
    model: &Model,
    z: i64,
    slots: Vec<Slot<OpenPlace, MadeNode>>,
) -> Result<Vec<Tested<OpenPlace, MadeNode>>, NoMemory>
    ensures { IfOk result (λ tested. AllZip (IsRetested model.now z) slots.items tested.items) }
{
    let mut tested = Vec::new(alloc);
    for slot in slots {
        tested.push(retested_slot(alloc, model, z, slot)?)?;
    }
    Ok(tested)
}

/// Tests each node against the cost to beat: one whose bound closes its item gives way to a node that closes it, and what
/// stands below it is left out. No place opens.
pub fn retest(alloc: Global, model: &Model, search: Search) -> Result<Search, NoMemory>
    requires { IsSearch model.now search }
    ensures search { IfOk result (IsSearch model.now) }
    ensures tested { IfOk result (λ new. new.is_tested ≡ true) }
    ensures places { IfOk result (λ new. All (Contains (opens_in search)) (opens_in new)) }
    ensures few { IfOk result (λ new. made_in new ≤ made_in search) }
    ensures cost { IfOk result (λ new. new.z ≡ search.z) }
    ensures best { IfOk result (λ new. new.best ≡ search.best) }
{
    let _sets = model.sets;
    let tested = retested_slots(alloc, model, search.z, search.slots)?;
    let slots = prune(alloc, tested)?;
    Ok(Search {
        slots,
        z: search.z,
        best: search.best,
        is_tested: true,
    })
}
