//! What is known between two rounds.

ghost use Rattle.std.specs.Prelude.{◌≡◌, IfOk, IfSome};
ghost use Rattle.route_model.specs.Parts.{ModelParts};
ghost use Rattle.column_rounds.specs.Columns.{AreColumnsOf};
ghost use Rattle.column_rounds.specs.Found.{IsPlanBelow};
ghost use Rattle.column_rounds.specs.Masters.{row_count};
ghost use Rattle.column_rounds.specs.Rounds.{IsState, IsStateFrom, cost_to_beat};

use crate::columns::Columns;
use crate::found::FoundPlan;
use made_nodes::no_multipliers;
use ng_sets::Near;
use path_graph::NoMemory;
use route_model::{Model, Mult};
use std::alloc::Global;

/// The near lists and how often they were widened, the multipliers of the last master whose tables closed with the values of its
/// rows, the first cost to beat, and the best plan that was found.
#[derive(Drop)]
pub(crate) struct State {
    pub near: Near,
    pub widenings: u32,
    pub mult: Mult,
    pub values: Vec<i64>,
    pub first: i64,
    pub best: Option<FoundPlan>,
}

impl State {
    /// The cost to beat now.
    pub(crate) fn to_beat(&self) -> i64
        ensures { result ≡ cost_to_beat self.now.first self.now.best }
    {
        match &self.best {
            None => self.first,
            Some(found) => found.cost,
        }
    }
}

/// How many rows the master has.
fn row_number(model: &Model) -> usize
    ensures { result ≡ row_count model.now }
{
    model.vars.len() + model.rows.len() + usize::from(model.sets) + model.graphs.len()
}

/// Before the first round: multipliers that are all 0, and no plan.
pub(crate) fn first_state(
    alloc: Global,
    model: &Model,
    columns: &Columns,
    first: i64,
) -> Result<State, NoMemory>
    requires { AreColumnsOf model.now columns.now }
    ensures { IfOk result (IsStateFrom model.now first) }
{
    let near = columns.near.copy(alloc)?;
    let mult = no_multipliers(alloc, model)?;
    let values = vec![in alloc; 0; row_number(model)]?;
    Ok(State {
        near,
        widenings: 0,
        mult,
        values,
        first,
        best: None,
    })
}

/// With a better plan, if one was found.
pub(crate) fn with_plan(state: State, plan: Option<FoundPlan>) -> State
    ensures first { result.first ≡ state.first }
    ensures state { (m : ModelParts) → IsState m state → IfSome plan (IsPlanBelow m (cost_to_beat state.first state.best))
        → IsState m result }
{
    State {
        near: state.near,
        widenings: state.widenings,
        mult: state.mult,
        values: state.values,
        first: state.first,
        best: plan.or(state.best),
    }
}

/// With other near lists, and the multipliers and values of a master.
pub(crate) fn with_master(
    state: State,
    near: Near,
    times: u32,
    mult: Mult,
    values: Vec<i64>,
) -> State
    ensures near { result.near ≡ near }
    ensures mult { result.mult ≡ mult }
    ensures values { result.values ≡ values }
    ensures first { result.first ≡ state.first }
    ensures best { result.best ≡ state.best }
{
    State {
        near,
        widenings: state.widenings.saturating_add(times),
        mult,
        values,
        first: state.first,
        best: state.best,
    }
}
