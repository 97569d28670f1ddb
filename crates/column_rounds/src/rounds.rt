ghost use Rattle.std.specs.Prelude.{ℤ, All, IfOk};
ghost use Rattle.route_model.specs.Parts.{ModelParts};
ghost use Rattle.route_model.specs.Places.{SpotFits};
ghost use Rattle.column_rounds.specs.Columns.{AreColumnsOf};
ghost use Rattle.column_rounds.specs.Found.{IsFound};
ghost use Rattle.ng_sets.specs.Near.{FitsGraphs};
ghost use Rattle.column_rounds.specs.Rounds.{IsState, IsStateFrom, IsStep, TaskFits};
ghost use Rattle.column_rounds.specs.Walks.{IsWalkIn};
ghost use Rattle.column_rounds.specs.Masters.{IsMaster};

use crate::adding::{add_walks, widen_by};
use crate::columns::{Columns, basis_of, keep_basis};
use crate::ending::found_of;
use crate::found::Found;
use crate::master::{Master, master_at};
use crate::plans::rounded_plan;
use crate::shown::shown_by;
use crate::state::{State, first_state, with_master, with_plan};
use crate::task::Task;
use ng_sets::Near;
use path_graph::NoMemory;
use route_model::{Model, Spot, Taken};
use std::alloc::Global;

/// The most rounds at a place, and how often near lists are widened there.
const MOST_ROUNDS: u32 = 10_000;

const MOST_WIDENINGS: u32 = 16;

/// What a round comes to: another may find more walks, or none does.
#[derive(Drop)]
pub(crate) enum Step {
    Goes(State),
    Ends(State),
}

/// The near lists widened by walks.
fn widened(
    alloc: Global,
    model: &Model,
    state: &State,
    walks: &[Taken],
) -> Result<(Near, u32), NoMemory>
    requires state { IsState model.now state.now }
    requires walks { All (IsWalkIn model.now) walks.now }
    ensures { IfOk result (λ pair. FitsGraphs pair.0 model.now.graphs) }
{
    let mut near = state.near.copy(alloc)?;
    let most = MOST_WIDENINGS.saturating_sub(state.widenings);
    let times = widen_by(&mut near, model, walks, most);
    Ok((near, times))
}

/// The walks that the multipliers of a master show are put into the pool, and widen the near lists.
fn with_walks(
    alloc: Global,
    columns: &mut Columns,
    model: &Model,
    state: State,
    master: Master,
    walks: &[Taken],
) -> Result<Step, NoMemory>
    requires columns { AreColumnsOf model.now columns.old }
    requires state { IsState model.now state }
    requires master { IsMaster model.now master }
    requires walks { All (IsWalkIn model.now) walks.now }
    ensures step { IfOk result (IsStep model.now state.first) }
    ensures columns { AreColumnsOf model.now columns.new }
{
    let is_new = add_walks(columns, model, walks)?;
    let (near, times) = widened(alloc, model, &state, walks)?;
    let basis = basis_of(alloc, master.numbers.as_slice(), master.weights.as_slice())?;
    keep_basis(columns, basis, master.rows);
    let state = with_master(state, near, times, master.mult, master.values);
    Ok(step_of(is_new, state))
}

/// Another round follows where a walk was new.
fn step_of(is_new: bool, state: State) -> Step
    ensures { (m : ModelParts) (first : ℤ) → IsStateFrom m first state → IsStep m first result }
{
    if is_new {
        Step::Goes(state)
    } else {
        Step::Ends(state)
    }
}

/// A round: the master over the walks that are known, a plan by its weights, and walks by its multipliers.
fn round(alloc: Global, task: &Task, columns: &mut Columns, state: State) -> Result<Step, NoMemory>
    requires task { TaskFits task.now }
    requires columns { AreColumnsOf task.now.model.now columns.old }
    requires state { IsState task.now.model.now state }
    ensures step { IfOk result (IsStep task.now.model.now state.first) }
    ensures columns { AreColumnsOf task.now.model.now columns.new }
{
    let master = master_at(alloc, task, columns)?;
    let plan = rounded_plan(
        alloc,
        task.model,
        columns,
        state.to_beat(),
        master.numbers.as_slice(),
        master.weights.as_slice(),
    )?;
    let state = with_plan(state, plan);
    match shown_by(alloc, task, &state.near, &master.mult)? {
        None => Ok(Step::Ends(state)),
        Some(walks) => with_walks(alloc, columns, task.model, state, master, walks.as_slice()),
    }
}

/// Rounds of column generation at a place (Gilmore and Gomory 1961), until no walk is new or a table reaches the limit of labels.
///
/// Each round solves the master over the walks of the pool, rounds its weights to a plan, and adds walks of negative reduced
/// cost that joins of half pairs show. Walks that come back to a packing set widen the near lists, at most 16 times. `z` is the
/// cost to beat; a plan is found only where it costs less. Nothing is promised of the multipliers but that they fit.
pub fn find_columns(
    alloc: Global,
    model: &Model,
    spot: &Spot,
    z: i64,
    limit: u32,
    columns: &mut Columns,
) -> Result<Found, NoMemory>
    requires spot { SpotFits model.now spot.now }
    requires columns { AreColumnsOf model.now columns.old }
    ensures found { IfOk result (IsFound model.now spot.now z) }
    ensures columns { AreColumnsOf model.now columns.new }
{
    let _sets = model.sets;
    let limit = limit.max(1);
    let task = Task { model, spot, limit };
    let mut state = first_state(alloc, model, columns, z)?;
    'rounds: for _round in 0..MOST_ROUNDS {
        match round(alloc, &task, columns, state)? {
            Step::Goes(next) => state = next,
            Step::Ends(last) => return found_of(alloc, &task, last),
        }
    }
    found_of(alloc, &task, state)
}
