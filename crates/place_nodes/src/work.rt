ghost use Rattle.std.specs.Prelude.{◌≤◌, ◌≤ℤ◌};
ghost use Rattle.route_model.specs.Costs.{cost_above_all};
ghost use Rattle.route_model.specs.Places.{SpotFits};
ghost use Rattle.certificate.specs.declared.limits.TheConstants.{MAX_LABELS};
ghost use Rattle.walk_list.specs.Listings.{AreCutOff};
ghost use Rattle.place_nodes.specs.Bounds.{IsBounded, IsOpenBound};
ghost use Rattle.place_nodes.specs.Proofs.{IsOf, IsPlaceProof};
ghost use Rattle.place_nodes.specs.Tasks.{IsWorkedAt, TaskFits};
ghost use Rattle.place_nodes.specs.Worked.{IsWorked};

use crate::list::{list_node, trees_of};
use crate::prices::plain_basis;
use crate::proof::Known;
use crate::split::{first_wide, split_node, split_of};
use crate::stops::list_wall;
use crate::tabled::{Bounded, by_tables};
use crate::task::Task;
use crate::wall::LabelWall;
use certificate::Trie;
use made_nodes::MadeNode;
use path_graph::List;
use route_model::{Model, Spot};
use search_tree::OpenPlace;
use std::alloc::Global;
use walk_list::Listed;

/// What comes of working an open place: a node, with the places that it opens, the last of them first; or a wall.
#[derive(Drop)]
pub enum Worked {
    Node(MadeNode, Vec<OpenPlace>),
    Wall(LabelWall),
    Memory,
}

/// Makes the node of an open place: with multipliers that are all 0 and tables of all labels of partial walks and of rests, the
/// place is closed where their bound closes it; else its walks are listed; where the list reaches the limit, the first box of a
/// variable that is no point is split at its low end.
///
/// `limit` is the most labels of each table, and the most lines of all trees together. Of a split both parts are open, of a list
/// the counts of its walks. There is a wall where a table reaches the limit, or the list does and all variables are fixed.
pub fn work_place(
    alloc: Global,
    model: &Model,
    spot: &Spot,
    value: i64,
    z: i64,
    limit: u32,
) -> Worked
    requires spot { SpotFits model.now spot.now }
    requires limit { 1 ≤ limit }
    requires few { limit ≤ MAX_LABELS }
    requires cost { z ≤ℤ cost_above_all model.now }
    ensures { IsWorked model.now spot.now value z limit result }
{
    let _sets = model.sets;
    let task = Task {
        model,
        spot,
        value,
        z,
        limit,
    };
    work(alloc, &task)
}

/// The same of a task.
pub(crate) fn work(alloc: Global, task: &Task) -> Worked
    requires { TaskFits task.now }
    ensures { IsWorkedAt task.now result }
{
    match plain_basis(alloc, task) {
        Err(_) => Worked::Memory,
        Ok(basis) => by_lists(alloc, task, by_tables(alloc, task, basis)),
    }
}

/// Lists the walks of a place that its tables leave open.
fn by_lists(alloc: Global, task: &Task, bounded: Bounded) -> Worked
    requires task { TaskFits task.now }
    requires bounded { IsBounded task.now bounded }
    ensures { IsWorkedAt task.now result }
{
    match bounded {
        Bounded::Ends(worked) => worked,
        Bounded::Open(known, bound) => by_trees(alloc, task, known, bound),
    }
}

/// Lists the walks of the place.
pub(crate) fn by_trees(alloc: Global, task: &Task, known: Known, bound: i128) -> Worked
    requires task { TaskFits task.now }
    requires known { IsPlaceProof task.now.model.now task.now.spot.now known }
    requires bound { IsOpenBound task.now known bound }
    ensures { IsWorkedAt task.now result }
{
    match trees_of(alloc, task, &known) {
        Listed::Memory => Worked::Memory,
        Listed::Tries(tries) => list_node(alloc, task, known, bound, tries),
        Listed::Wall(tries) => cut_off(alloc, task, known, bound, tries),
    }
}

/// Splits a place whose list was cut off, or stops at the wall.
fn cut_off(alloc: Global, task: &Task, known: Known, bound: i128, tries: List<Trie>) -> Worked
    requires task { TaskFits task.now }
    requires known { IsPlaceProof task.now.model.now task.now.spot.now known }
    requires bound { IsOpenBound task.now known bound }
    requires trees { AreCutOff task.now.model.now task.now.spot.now (IsOf task.now known) task.now.z task.now.limit tries }
    ensures { IsWorkedAt task.now result }
{
    let spot = task.spot;
    match first_wide(spot.boxes.vars.as_slice()) {
        None => list_wall(alloc, task, known, tries),
        Some(j) => split_node(alloc, task, known, bound, split_of(spot, j)),
    }
}
