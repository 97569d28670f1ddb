//! Plans that come of rounding the weights of the master.

ghost use Rattle.std.specs.Prelude.{◌≤◌, IfOk, IfSome};
ghost use Rattle.route_model.specs.Verdicts.{IsCounted};
ghost use Rattle.column_rounds.specs.Found.{IsPlanBelow};

use crate::columns::Columns;
use crate::found::FoundPlan;
use column_pool::Pool;
use path_graph::{List, NoMemory};
use route_model::{Model, Plan, SCALE, Taken, Verdict, judge, tidy};
use std::alloc::Global;

/// The greatest count of a walk that is tried, and the most walks of a plan.
const MOST_COUNT: u32 = 4_096;

const MOST_PATHS: usize = 1_000_000;

/// A weight, rounded to the nearest whole number; none where that is no count of a walk in a plan.
fn count_of(weight: i64) -> Option<u32>
    ensures { IfSome result (λ count. count ≤ 4096) }
{
    let count = u32::try_from(weight.saturating_add(SCALE / 2) / SCALE).ok()?;
    if count == 0 || count > MOST_COUNT {
        return None;
    }
    Some(count)
}

/// The plan that takes each walk as often as its weight says, rounded.
fn rounded(
    alloc: Global,
    pool: &Pool,
    numbers: &[Option<u32>],
    weights: &[i64],
) -> Result<Plan, NoMemory>
    ensures { IfOk result IsCounted }
{
    let mut paths = List::new(alloc);
    for (number, weight) in numbers.iter().zip(weights) {
        if let Some(taken) = taken_of(alloc, pool, *number, *weight)? {
            if paths.len() < MOST_PATHS {
                paths.push(taken)?;
            }
        }
    }
    Ok(Plan { paths })
}

/// A walk with its count, if it has one.
fn taken_of(
    alloc: Global,
    pool: &Pool,
    number: Option<u32>,
    weight: i64,
) -> Result<Option<Taken>, NoMemory>
    ensures { IfOk result (λ taken. IfSome taken (λ t. t.count ≤ 4096)) }
{
    let Some(count) = count_of(weight) else {
        return Ok(None);
    };
    match number {
        Some(number) if number < pool.len() => {
            let (graph, arcs) = pool.walk(number);
            let arcs = List::from_vec(Vec::from_slice(alloc, arcs)?);
            Ok(Some(Taken { graph, count, arcs }))
        }
        _ => Ok(None),
    }
}

/// The plan, tidied, where it is a solution that costs less than z.
fn better_plan(
    alloc: Global,
    model: &Model,
    z: i64,
    plan: &Plan,
) -> Result<Option<FoundPlan>, NoMemory>
    requires { IsCounted plan.now }
    ensures { IfOk result (λ found. IfSome found (IsPlanBelow model.now z)) }
{
    let _sets = model.sets;
    match judge(model, plan) {
        Verdict::Fine { cost } if cost < z => {
            let plan = tidy(alloc, plan)?;
            Ok(Some(FoundPlan { cost, plan }))
        }
        _ => Ok(None),
    }
}

/// A plan of the walks whose rounded weights are counts, where it is a solution that costs less than z.
pub(crate) fn rounded_plan(
    alloc: Global,
    model: &Model,
    columns: &Columns,
    z: i64,
    numbers: &[Option<u32>],
    weights: &[i64],
) -> Result<Option<FoundPlan>, NoMemory>
    ensures { IfOk result (λ found. IfSome found (IsPlanBelow model.now z)) }
{
    let plan = rounded(alloc, &columns.pool, numbers, weights)?;
    better_plan(alloc, model, z, &plan)
}
