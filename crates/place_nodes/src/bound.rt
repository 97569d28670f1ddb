//! What the proof of a place says of it against the cost to beat.

ghost use Rattle.std.specs.Prelude.{◌≡◌, IfOk, map};
ghost use Rattle.place_nodes.specs.Proofs.{IsPlaceProof};
ghost use Rattle.place_nodes.specs.Bounds.{IsOpenValue, LeavesOpen};
ghost use Rattle.place_nodes.specs.Tasks.{TaskFits};

use crate::proof::Known;
use crate::task::Task;
use label_rules::ProofTable;
use path_graph::NoMemory;
use safe_bound::{Bound, bound_value, closes};
use std::alloc::Global;

/// The leasts of tables.
fn leasts_of(alloc: Global, tables: &[ProofTable]) -> Result<Vec<Option<i128>>, NoMemory>
    ensures { IfOk result (λ leasts. leasts.items ≡ map (λ table. table.least) tables.now) }
{
    let leasts = tables.iter().map(|table| table.least).collect(alloc)?;
    Ok(leasts)
}

/// The value of a bound that does not close against z; none where the bound does.
fn open_value(bound: &Bound, z: i64) -> Option<i128>
    ensures { IsOpenValue bound.now z result }
{
    if closes(bound, z) {
        return None;
    }
    match *bound {
        Bound::Value(value) => Some(value),
        Bound::NoPaths(_) => None,
    }
}

/// The bound of the place, at the scale of 65,536 to a unit of cost, where it leaves the place open against the cost to beat; none
/// where the place is closed.
pub(crate) fn open_bound(
    alloc: Global,
    task: &Task,
    known: &Known,
) -> Result<Option<i128>, NoMemory>
    requires task { TaskFits task.now }
    requires known { IsPlaceProof task.now.model.now task.now.spot.now known.now }
    ensures { IfOk result (LeavesOpen task.now known.now) }
{
    let leasts = leasts_of(alloc, known.proof.tables.as_slice())?;
    let spot = task.spot;
    let bound = bound_value(&known.priced, &spot.boxes, leasts.as_slice());
    Ok(open_value(&bound, task.z))
}
