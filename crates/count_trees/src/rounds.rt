ghost use Rattle.std.specs.Prelude.{◌≡◌, ◌<◌, ◌≤◌, ◌^◌, IfOk, length};
ghost use Rattle.route_model.specs.Fit.{ModelFits};
ghost use Rattle.route_model.specs.Places.{span_at};
ghost use Rattle.route_model.specs.Verdicts.{IsCounted};
ghost use Rattle.proof_rules.specs.Nodes.{ArePoints};
ghost use Rattle.cert_check.specs.Reads.{IsCountBox};
ghost use Rattle.made_nodes.specs.Closing.{IsZeroClose};
ghost use Rattle.made_nodes.specs.Zeros.{zero_bound};
ghost use Rattle.count_trees.specs.Points.{IsWide};
ghost use Rattle.count_trees.specs.Rounds.{CountsAt, IsFoundBelow, IsRound, SplitsAt, TaskFits, walks_in};

use crate::growth::{Found, Growth, with_found, with_node, with_parts};
use crate::points::{first_wide, plan_left};
use crate::terms::term_sum;
use certificate::NodeForm;
use made_nodes::{MadeNode, closing_bound, no_multipliers};
use path_graph::{List, NoMemory};
use route_model::{Model, Plan, Span, Spot, Verdict, judge, tidy};
use std::alloc::Global;
use walk_list::ListedWalk;

/// What a tree is grown from: a model, a place, listed walks, and their costs, times 65,536.
#[derive(Clone, Copy)]
pub(crate) struct Task<'a> {
    pub model: &'a Model,
    pub spot: &'a Spot,
    pub walks: &'a [ListedWalk],
    pub costs: &'a [i128],
}

/// The bound of counts: that of multipliers which are all 0.
fn bound_of(task: &Task, boxes: &[Span]) -> i128
    requires task { TaskFits task.now }
    requires fits { CountsAt task.now boxes.now }
    ensures { result ≡ zero_bound task.now.model.now task.now.spot.now (walks_in task.now) boxes.now }
{
    term_sum(task.costs, boxes)
}

/// A node that closes counts by multipliers which are all 0.
fn zero_close(alloc: Global, model: &Model) -> Result<MadeNode, NoMemory>
    ensures { IfOk result (λ node. IsZeroClose model.now node.form) }
{
    Ok(MadeNode {
        form: NodeForm::CountClose(no_multipliers(alloc, model)?),
        bound: 0,
    })
}

/// The plan, tidied, where it is a solution that costs less than z.
fn found_below(alloc: Global, model: &Model, z: i64, plan: &Plan) -> Result<Option<Found>, NoMemory>
    requires model { ModelFits model.now }
    requires counted { IsCounted plan.now }
    ensures { IfOk result (IsFoundBelow model.now z plan.now) }
{
    match judge(model, plan) {
        Verdict::Fine { cost } => {
            if cost < z {
                let plan = tidy(alloc, plan)?;
                Ok(Some(Found { cost, plan }))
            } else {
                Ok(None)
            }
        }
        _ => Ok(None),
    }
}

/// Counts that are points: their one plan is looked at.
fn point_round(
    alloc: Global,
    task: &Task,
    growth: Growth,
    boxes: &[Span],
) -> Result<Growth, NoMemory>
    requires task { TaskFits task.now }
    requires fits { CountsAt task.now boxes.now }
    requires points { ArePoints boxes.now }
    ensures { IfOk result (IsRound task.now growth boxes.now) }
{
    let plan = plan_left(alloc, task.walks, boxes)?;
    let found = found_below(alloc, task.model, growth.z, &plan)?;
    let node = MadeNode {
        form: NodeForm::Point,
        bound: 0,
    };
    with_node(with_found(growth, found), node)
}

/// A split of counts, at the low end of a box.
fn split_round(
    alloc: Global,
    growth: Growth,
    boxes: List<Span>,
    i: usize,
    bound: i128,
) -> Result<Growth, NoMemory>
    requires inside { i < length boxes }
    requires few { length boxes ≤ 2 ^ 31 }
    requires span { IsCountBox (span_at boxes i) }
    ensures { IfOk result (SplitsAt growth boxes i bound) }
{
    let low = boxes.at(i).low;
    let node = MadeNode {
        form: NodeForm::CountSplit(i as u32, low),
        bound,
    };
    let growth = with_node(growth, node)?;
    with_parts(alloc, growth, boxes, i)
}

/// Counts of which one box is no point: they are closed, or that box is split at its low end.
fn wide_round(
    alloc: Global,
    task: &Task,
    growth: Growth,
    boxes: List<Span>,
    i: usize,
) -> Result<Growth, NoMemory>
    requires task { TaskFits task.now }
    requires fits { CountsAt task.now boxes }
    requires wide { IsWide boxes i }
    ensures { IfOk result (IsRound task.now growth boxes) }
{
    let bound = bound_of(task, boxes.as_slice());
    if bound > closing_bound(growth.z) {
        with_node(growth, zero_close(alloc, task.model)?)
    } else {
        split_round(alloc, growth, boxes, i, bound)
    }
}

/// The node of the counts that are taken next, and what it opens.
pub(crate) fn round(
    alloc: Global,
    task: &Task,
    growth: Growth,
    boxes: List<Span>,
) -> Result<Growth, NoMemory>
    requires task { TaskFits task.now }
    requires fits { CountsAt task.now boxes }
    ensures { IfOk result (IsRound task.now growth boxes) }
{
    match first_wide(boxes.as_slice()) {
        None => point_round(alloc, task, growth, boxes.as_slice()),
        Some(i) => wide_round(alloc, task, growth, boxes, i),
    }
}
