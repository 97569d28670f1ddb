ghost use Rattle.std.specs.Prelude.{IfOk};
ghost use Rattle.cert_check.specs.Reads.{CountsFit};
ghost use Rattle.walk_list.specs.Walks.{walks_said};
ghost use Rattle.count_trees.specs.Growth.{IsCountGrowth};
ghost use Rattle.count_trees.specs.Rounds.{CountsAt, IsGrownWithin, TaskFits};

use crate::costs::walk_costs;
use crate::growth::{CountGrowth, Growth, first_growth, told};
use crate::rounds::{Task, round};
use path_graph::{List, NoMemory};
use route_model::{Model, Span, Spot};
use std::alloc::Global;
use walk_list::ListedWalk;

/// The nodes of a tree from counts in boxes, as many as a budget allows.
fn grow(
    alloc: Global,
    task: &Task,
    boxes: List<Span>,
    z: i64,
    budget: usize,
) -> Result<Growth, NoMemory>
    requires task { TaskFits task.now }
    requires fits { CountsAt task.now boxes }
    ensures { IfOk result (IsGrownWithin task.now boxes z budget) }
{
    let mut growth = first_growth(alloc, boxes, z)?;
    for made in 0..budget {
        match growth.rest.pop() {
            None => return Ok(growth),
            Some(boxes) => growth = round(alloc, task, growth, boxes)?,
        }
    }
    Ok(growth)
}

/// Grows a proof tree over the counts of listed walks at a place, depth first, until nothing is open or so many nodes were
/// made.
///
/// Counts that are points leave one plan: where it is a solution that costs less than the cost to beat, it is the best from
/// then on. Other counts are closed by the costs alone, each walk taken as often as its box allows at least, or at most
/// where it costs less than 0; or else the first box that is no point is split at its low end. A node takes one pass over
/// the boxes, a plan that is left the time of `judge`.
pub fn grow_counts(
    alloc: Global,
    model: &Model,
    spot: &Spot,
    walks: &[ListedWalk],
    boxes: List<Span>,
    z: i64,
    budget: usize,
) -> Result<CountGrowth, NoMemory>
    requires fits { CountsFit model.now spot.now (walks_said walks.now) boxes }
    ensures { IfOk result (IsCountGrowth model.now spot.now (walks_said walks.now) boxes z budget) }
{
    let costs = walk_costs(alloc, model, walks)?;
    let task = Task {
        model,
        spot,
        walks,
        costs: costs.as_slice(),
    };
    let growth = grow(alloc, &task, boxes, z, budget)?;
    Ok(told(growth))
}
