//! What the rounds have found.

ghost use Rattle.std.specs.Prelude.{◌≡◌, IfOk, length};
ghost use Rattle.route_model.specs.Places.{SpotFits};
ghost use Rattle.column_rounds.specs.Found.{IsFound, IsSplitAt};
ghost use Rattle.column_rounds.specs.Masters.{row_count};
ghost use Rattle.column_rounds.specs.Rounds.{IsState, TaskFits};

use crate::found::Found;
use crate::lines::lines_of;
use crate::state::State;
use crate::task::Task;
use branch_tree::choose_split;
use path_graph::NoMemory;
use route_model::{Model, Split, Spot};
use std::alloc::Global;

/// The next split of a place, by the values of the rows.
fn split_at(model: &Model, spot: &Spot, values: &[i64]) -> Option<Split>
    requires spot { SpotFits model.now spot.now }
    requires values { length values.now ≡ row_count model.now }
    ensures { IsSplitAt model.now spot.now result }
{
    let vars = model.vars.len();
    let first = vars + model.rows.len() + usize::from(model.sets);
    choose_split(&spot.boxes, &values[..vars], &values[first..])
}

/// What the rounds have found.
pub(crate) fn found_of(alloc: Global, task: &Task, state: State) -> Result<Found, NoMemory>
    requires task { TaskFits task.now }
    requires state { IsState task.now.model.now state }
    ensures { IfOk result (IsFound task.now.model.now task.now.spot.now state.first) }
{
    let near = lines_of(alloc, task.model, &state.near)?;
    let split = split_at(task.model, task.spot, state.values.as_slice());
    Ok(Found {
        mult: state.mult,
        near,
        split,
        best: state.best,
    })
}
