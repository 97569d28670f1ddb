//! The walls at which a place stops.

ghost use Rattle.proof_rules.specs.Nodes.{ArePoints};
ghost use Rattle.walk_list.specs.Listings.{AreCutOff};
ghost use Rattle.pricing.specs.Outcomes.{IsWallIn};
ghost use Rattle.place_nodes.specs.Proofs.{IsOf, IsPlaceProof};
ghost use Rattle.place_nodes.specs.Tasks.{IsBasis, IsWorkedAt, TaskFits, graphs_of, setting_by};

use crate::prices::Basis;
use crate::proof::Known;
use crate::task::Task;
use crate::wall::LabelWall;
use crate::work::Worked;
use certificate::{Proof, Trie};
use label_core::Table;
use path_graph::List;
use route_labels::Label;
use std::alloc::Global;

/// The table of a graph reached the limit.
pub(crate) fn table_wall(
    alloc: Global,
    task: &Task,
    basis: Basis,
    graph: u32,
    is_backward: bool,
    table: Table<Label>,
) -> Worked
    requires task { TaskFits task.now }
    requires basis { IsBasis task.now.model.now task.now.spot.now basis }
    requires wall { IsWallIn (graphs_of task.now) (setting_by task.now basis) task.now.limit graph is_backward table }
    ensures { IsWorkedAt task.now result }
{
    match task.spot.copy(alloc) {
        Err(_) => Worked::Memory,
        Ok(spot) => {
            let proof = Proof {
                mult: basis.mult,
                cuts: basis.cuts,
                near: basis.lines,
                tables: List::new(alloc),
            };
            Worked::Wall(LabelWall::Table(graph, is_backward, spot, proof, table))
        }
    }
}

/// The trees of the place reached the limit, and its variables are fixed.
pub(crate) fn list_wall(alloc: Global, task: &Task, known: Known, tries: List<Trie>) -> Worked
    requires task { TaskFits task.now }
    requires known { IsPlaceProof task.now.model.now task.now.spot.now known }
    requires points { ArePoints task.now.spot.now.boxes.vars }
    requires trees { AreCutOff task.now.model.now task.now.spot.now (IsOf task.now known) task.now.z task.now.limit tries }
    ensures { IsWorkedAt task.now result }
{
    match task.spot.copy(alloc) {
        Err(_) => Worked::Memory,
        Ok(spot) => Worked::Wall(LabelWall::List(spot, known.proof, task.z, tries)),
    }
}
