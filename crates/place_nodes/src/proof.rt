//! The tables of a place, and the proof that they are.

ghost use Rattle.std.specs.Prelude.{◌≡◌, true, length};
ghost use Rattle.certificate.specs.Sizes.{sizes_of};
ghost use Rattle.pricing.specs.Outcomes.{IsOutcome};
ghost use Rattle.pricing.specs.Told.{AreAllTold, AreTold};
ghost use Rattle.place_nodes.specs.Proofs.{IsPlaceProof};
ghost use Rattle.place_nodes.specs.Tasks.{AreBothTables, IsBasis, TaskFits, graphs_of, setting_by};

use crate::prices::Basis;
use crate::task::Task;
use certificate::Proof;
use label_rules::ProofTable;
use ng_sets::Near;
use path_graph::List;
use pricing::{TablesOut, tables};
use route_model::Priced;
use std::alloc::Global;

/// A proof of a place, with the prices and the near lists that it was made from.
#[derive(Drop)]
pub(crate) struct Known {
    pub proof: Proof,
    pub priced: Priced,
    pub near: Near,
}

/// The tables of partial walks and of rests of every graph at the place.
pub(crate) fn tables_of(alloc: Global, task: &Task, basis: &Basis) -> TablesOut
    requires task { TaskFits task.now }
    requires basis { IsBasis task.now.model.now task.now.spot.now basis.now }
    ensures outcome { IsOutcome (graphs_of task.now) (setting_by task.now basis.now) true task.now.limit result }
    ensures told { AreAllTold (sizes_of task.now.model.now) (length basis.now.cuts) task.now.limit result }
{
    tables(
        alloc,
        task.model,
        task.spot,
        &basis.priced,
        &basis.near,
        basis.cuts.as_slice(),
        basis.mult.cuts.as_slice(),
        true,
        task.limit,
    )
}

/// The proof that closed tables are.
pub(crate) fn known_of(task: &Task, basis: Basis, tables: List<ProofTable>) -> Known
    requires task { TaskFits task.now }
    requires basis { IsBasis task.now.model.now task.now.spot.now basis }
    requires tables { AreBothTables task.now basis tables }
    requires told { AreTold (sizes_of task.now.model.now) (length basis.cuts) task.now.limit tables }
    ensures { IsPlaceProof task.now.model.now task.now.spot.now result }
{
    let _limit = task.limit;
    let proof = Proof {
        mult: basis.mult,
        cuts: basis.cuts,
        near: basis.lines,
        tables,
    };
    Known {
        proof,
        priced: basis.priced,
        near: basis.near,
    }
}
