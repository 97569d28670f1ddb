//! The node of an open place, with multipliers, near lists and a split that are given.

ghost use Rattle.std.specs.Prelude.{◌≡◌, ◌≤◌, ◌≤ℤ◌, []};
ghost use Rattle.route_model.specs.Costs.{cost_above_all};
ghost use Rattle.route_model.specs.Places.{SpotFits};
ghost use Rattle.multipliers.specs.Ranges.{MultFits};
ghost use Rattle.line_text.specs.Items.{EachAfter};
ghost use Rattle.certificate.specs.declared.limits.TheConstants.{MAX_LABELS};
ghost use Rattle.certificate.specs.CertText.{NearMay};
ghost use Rattle.certificate.specs.Sizes.{sizes_of};
ghost use Rattle.column_rounds.specs.Found.{IsSplitAt};
ghost use Rattle.place_nodes.specs.Bounds.{IsBounded, IsOpenBound};
ghost use Rattle.place_nodes.specs.Proofs.{IsPlaceProof};
ghost use Rattle.place_nodes.specs.Tasks.{IsPricedAt, TaskFits};
ghost use Rattle.place_nodes.specs.Worked.{IsPricedWork};

use crate::prices::basis_of;
use crate::proof::Known;
use crate::split::{split_node, split_unless_fixed};
use crate::tabled::{Bounded, by_tables};
use crate::task::Task;
use crate::work::{Worked, by_trees, work};
use path_graph::{List, SetBits};
use route_model::{Model, Mult, Split, Spot};
use std::alloc::Global;

/// Makes the node of an open place with multipliers, the lines of near lists, and a split: the place is closed where the bound
/// that tables of all labels prove closes it; else it is split there, and both parts are open. Where the boxes of all variables
/// are points, or all boxes are, its walks are listed, as without multipliers.
///
/// Where a multiplier needs a side of a row that is open, the place is worked without multipliers.
pub fn work_priced(
    alloc: Global,
    model: &Model,
    spot: &Spot,
    value: i64,
    z: i64,
    limit: u32,
    mult: Mult,
    near: List<(u32, u32, SetBits)>,
    split: Option<Split>,
) -> Worked
    requires spot { SpotFits model.now spot.now }
    requires limit { 1 ≤ limit }
    requires few { limit ≤ MAX_LABELS }
    requires cost { z ≤ℤ cost_above_all model.now }
    requires mult { MultFits model.now mult }
    requires cuts { mult.cuts ≡ [] }
    requires near { EachAfter (NearMay (sizes_of model.now)) [] near }
    requires split { IsSplitAt model.now spot.now split }
    ensures { IsPricedWork model.now spot.now value z limit result }
{
    let _sets = model.sets;
    let task = Task {
        model,
        spot,
        value,
        z,
        limit,
    };
    match basis_of(alloc, &task, mult, near) {
        Err(_) => work(alloc, &task),
        Ok(basis) => by_split(alloc, &task, by_tables(alloc, &task, basis), split),
    }
}

/// Splits a place that its tables leave open, or lists its walks.
fn by_split(alloc: Global, task: &Task, bounded: Bounded, split: Option<Split>) -> Worked
    requires task { TaskFits task.now }
    requires bounded { IsBounded task.now bounded }
    requires split { IsSplitAt task.now.model.now task.now.spot.now split }
    ensures { IsPricedAt task.now result }
{
    match bounded {
        Bounded::Ends(worked) => worked,
        Bounded::Open(known, bound) => split_or_list(alloc, task, known, bound, split),
    }
}

/// Splits the place; where the boxes of all variables are points, or there is no split, lists its walks.
fn split_or_list(
    alloc: Global,
    task: &Task,
    known: Known,
    bound: i128,
    split: Option<Split>,
) -> Worked
    requires task { TaskFits task.now }
    requires known { IsPlaceProof task.now.model.now task.now.spot.now known }
    requires bound { IsOpenBound task.now known bound }
    requires split { IsSplitAt task.now.model.now task.now.spot.now split }
    ensures { IsPricedAt task.now result }
{
    match split_unless_fixed(task, split) {
        None => by_trees(alloc, task, known, bound),
        Some(split) => split_node(alloc, task, known, bound, split),
    }
}
