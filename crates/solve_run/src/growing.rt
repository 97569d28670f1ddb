//! A round that makes nodes at an open place.

ghost use Rattle.std.specs.Prelude.{IfOk, IfSome};
ghost use Rattle.open_tree.specs.Slots.{IsOpenAt};
ghost use Rattle.search_tree.specs.Search.{slots_in};
ghost use Rattle.search_steps.specs.Trees.{place_at as place_with};
ghost use Rattle.column_rounds.specs.Columns.{AreColumnsOf};
ghost use Rattle.column_rounds.specs.Found.{IsPlanBelow};
ghost use Rattle.solve_run.specs.Limits.{LimitsFit};
ghost use Rattle.solve_run.specs.Rounds.{HasOpenAt, IsKept, IsRoom, IsRound, IsStepAt, IsWithin};

use crate::choosing::place_at;
use crate::outcome::Limits;
use crate::rounds::Next;
use crate::told::label_limit;
use column_rounds::{Columns, FoundPlan, find_columns};
use path_graph::NoMemory;
use route_model::{Model, Spot};
use search_steps::{Stepped, grow_listed, grow_place};
use search_tree::{OpenItem, Search, give_way, with_best};
use std::alloc::Global;

/// A search with a better plan, if one was found.
fn improved(model: &Model, limits: &Limits, search: Search, best: Option<FoundPlan>) -> Search
    requires search { IsWithin model.now limits.now search }
    requires best { IfSome best (IsPlanBelow model.now search.z) }
    ensures { IsKept model.now limits.now search result }
{
    let _sets = model.sets;
    let _nodes = limits.nodes;
    match best {
        Some(found) => with_best(search, found.cost, found.plan),
        None => search,
    }
}

/// What a step at an open place comes to.
fn stepped(
    alloc: Global,
    model: &Model,
    limits: &Limits,
    search: Search,
    at: usize,
    budget: usize,
    step: Stepped,
) -> Result<Next, NoMemory>
    requires search { IsWithin model.now limits.now search }
    requires budget { IsRoom limits.now search budget }
    requires step { IsStepAt model.now search at limits.now.labels budget step }
    ensures { IfOk result (IsRound model.now limits.now search) }
{
    let _sets = model.sets;
    let _budget = (limits.nodes, budget);
    match step {
        Stepped::Grown(grown) => Ok(Next::Goes(give_way(alloc, search, at, grown)?)),
        Stepped::Wall(wall) => Ok(Next::Ends(label_limit(model, search, wall))),
        Stepped::Memory => Err(NoMemory),
    }
}

/// The node of an open place, with what column generation finds there: a better plan is to beat before the node is made.
fn place_round(
    alloc: Global,
    model: &Model,
    limits: &Limits,
    search: Search,
    at: usize,
    budget: usize,
    spot: &Spot,
    value: i64,
    columns: &mut Columns,
) -> Result<Next, NoMemory>
    requires limits { LimitsFit limits.now }
    requires search { IsWithin model.now limits.now search }
    requires place { IsOpenAt (slots_in search) at (place_with spot.now value) }
    requires budget { IsRoom limits.now search budget }
    requires columns { AreColumnsOf model.now columns.old }
    ensures round { IfOk result (IsRound model.now limits.now search) }
    ensures columns { AreColumnsOf model.now columns.new }
{
    let found = find_columns(alloc, model, spot, search.z, limits.labels, columns)?;
    let search = improved(model, limits, search, found.best);
    let step = grow_place(
        alloc,
        model,
        spot,
        value,
        search.z,
        limits.labels,
        budget,
        found.mult,
        found.near,
        found.split,
    );
    stepped(alloc, model, limits, search, at, budget, step)
}

/// A tree is grown at an open place: a node at a place, or a tree over counts of listed walks.
pub(crate) fn grow_round(
    alloc: Global,
    model: &Model,
    limits: &Limits,
    search: Search,
    at: usize,
    budget: usize,
    columns: &mut Columns,
) -> Result<Next, NoMemory>
    requires limits { LimitsFit limits.now }
    requires search { IsWithin model.now limits.now search }
    requires place { HasOpenAt (slots_in search) at }
    requires budget { IsRoom limits.now search budget }
    requires columns { AreColumnsOf model.now columns.old }
    ensures round { IfOk result (IsRound model.now limits.now search) }
    ensures columns { AreColumnsOf model.now columns.new }
{
    let place = place_at(search.slots.as_slice(), at);
    let value = place.value;
    match &place.item {
        OpenItem::Counts(listing, boxes) => {
            let step = grow_listed(alloc, model, listing, boxes, value, search.z, budget);
            stepped(alloc, model, limits, search, at, budget, step)
        }
        OpenItem::Place(spot) => {
            let spot = spot.copy(alloc)?;
            place_round(
                alloc, model, limits, search, at, budget, &spot, value, columns,
            )
        }
    }
}
