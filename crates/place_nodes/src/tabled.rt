//! What the tables of a place tell of it.

ghost use Rattle.std.specs.Prelude.{None};
ghost use Rattle.place_nodes.specs.Bounds.{IsBounded, LeavesOpen};
ghost use Rattle.place_nodes.specs.Proofs.{IsPlaceProof};
ghost use Rattle.place_nodes.specs.Tasks.{IsBasis, IsWorkedAt, TaskFits};

use crate::bound::open_bound;
use crate::prices::Basis;
use crate::proof::{Known, known_of, tables_of};
use crate::stops::table_wall;
use crate::task::Task;
use crate::work::Worked;
use certificate::NodeForm;
use made_nodes::MadeNode;
use pricing::TablesOut;
use std::alloc::Global;

/// The node that closes a place, or the wall at which its tables stop; or the proof that leaves it open, with its bound.
#[derive(Drop)]
pub(crate) enum Bounded {
    Ends(Worked),
    Open(Known, i128),
}

/// Fills the tables of the place.
pub(crate) fn by_tables(alloc: Global, task: &Task, basis: Basis) -> Bounded
    requires task { TaskFits task.now }
    requires basis { IsBasis task.now.model.now task.now.spot.now basis }
    ensures { IsBounded task.now result }
{
    match tables_of(alloc, task, &basis) {
        TablesOut::Memory => Bounded::Ends(Worked::Memory),
        TablesOut::Wall(graph, is_backward, table) => {
            Bounded::Ends(table_wall(alloc, task, basis, graph, is_backward, table))
        }
        TablesOut::Tables(tables, _) => by_proof(alloc, task, known_of(task, basis, tables)),
    }
}

/// Closes the place, where its bound does.
fn by_proof(alloc: Global, task: &Task, known: Known) -> Bounded
    requires task { TaskFits task.now }
    requires known { IsPlaceProof task.now.model.now task.now.spot.now known }
    ensures { IsBounded task.now result }
{
    match open_bound(alloc, task, &known) {
        Err(_) => Bounded::Ends(Worked::Memory),
        Ok(None) => Bounded::Ends(close_node(alloc, task, known)),
        Ok(Some(bound)) => Bounded::Open(known, bound),
    }
}

/// A node that closes the place.
fn close_node(alloc: Global, task: &Task, known: Known) -> Worked
    requires task { TaskFits task.now }
    requires known { IsPlaceProof task.now.model.now task.now.spot.now known }
    requires closed { LeavesOpen task.now known None }
    ensures { IsWorkedAt task.now result }
{
    let form = NodeForm::Close(known.proof);
    Worked::Node(MadeNode { form, bound: 0 }, Vec::new(alloc))
}
