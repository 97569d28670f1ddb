ghost use Rattle.std.specs.Prelude.{IfOk};
ghost use Rattle.solve_run.specs.Limits.{LimitsFit};
ghost use Rattle.solve_run.specs.Outcomes.{IsOutcome, IsPassed};
ghost use Rattle.solve_run.specs.Told.{IsEnding};

use crate::outcome::{Limits, Outcome};
use crate::rounds::{Next, round};
use column_rounds::begin_columns;
use path_graph::NoMemory;
use route_model::Model;
use search_tree::begin;
use std::alloc::Global;
use std::thread::Threads;
use vrp_io::Gate;

/// Rounds, until one ends the search.
fn search_on(alloc: Global, model: &Model, limits: &Limits) -> Result<Outcome, NoMemory>
    requires { LimitsFit limits.now }
    ensures { IfOk result (IsEnding model.now limits.now) }
{
    let mut search = begin(alloc, model)?;
    let mut columns = begin_columns(alloc, model)?;
    'rounds: loop {
        match round(alloc, model, limits, search, &mut columns)? {
            Next::Goes(next) => search = next,
            Next::Ends(outcome) => return Ok(outcome),
        }
    }
}

/// Solves a model exactly, within limits.
///
/// It answers a least plan, or that there is no solution, with a certificate that the check accepts. Where more labels or more
/// nodes are needed than the limits allow, it answers why, with the best plan that was found and a bound.
pub fn solve<R: Threads + Sync, G: Gate + Sync>(
    _rt: &R,
    alloc: Global,
    model: &Model,
    limits: &Limits,
    _gate: &G,
) -> Outcome
    requires { LimitsFit limits.now }
    ensures outcome { IsOutcome model.now limits.now result }
    ensures passed { IsPassed model.now limits.now result }
{
    match search_on(alloc, model, limits) {
        Ok(outcome) => outcome,
        Err(NoMemory) => Outcome::Memory,
    }
}
