ghost use Rattle.std.specs.Prelude.{◌≡◌, ◌++◌, ◌^◌, ◌≤◌, ◌↔◌, All, IfOk, IsTrue, OnOk, length, unsigned_abs};
ghost use Rattle.path_graph.specs.declared.limits.TheConstants.{MAX_PATHS};
ghost use Rattle.route_model.specs.Verdicts.{IsCounted};
ghost use Rattle.proof_rules.specs.Counts.{plan_of};
ghost use Rattle.proof_rules.specs.Nodes.{lows};
ghost use Rattle.cert_check.specs.Reads.{IsCountBox};
ghost use Rattle.walk_list.specs.Walks.{walk_said, walks_said};
ghost use Rattle.count_trees.specs.Points.{IsWideAt, taken_if};

use path_graph::{List, NoMemory};
use route_model::{Plan, Span, Taken};
use std::alloc::Global;
use walk_list::ListedWalk;

/// Whether a box is a point.
fn is_point(span: Span) -> bool
    ensures { IsTrue result ↔ (span.low ≡ span.high) }
{
    span.low == span.high
}

/// The first box that is no point, if there is one.
pub(crate) fn first_wide(boxes: &[Span]) -> Option<usize>
    ensures { IsWideAt boxes.now result }
{
    for (i, span) in boxes.iter().enumerate() {
        if !is_point(*span) {
            return Some(i);
        }
    }
    None
}

/// The number at the low end of the box of a count.
fn low_count(span: Span) -> u32
    requires { IsCountBox span }
    ensures count { result ≡ unsigned_abs span.low }
    ensures small { result ≤ MAX_PATHS }
{
    span.low as u32
}

/// Puts a walk behind those of a plan, unless its count is 0.
fn take_walk(
    alloc: Global,
    paths: &mut List<Taken>,
    walk: &ListedWalk,
    count: u32,
) -> Result<(), NoMemory>
    ensures { OnOk result (paths.new ≡ paths.old ++ taken_if (walk_said walk.now) count) }
{
    if count == 0 {
        return Ok(());
    }
    let arcs = walk.arcs.copy(alloc)?;
    paths.push(Taken {
        graph: walk.graph,
        count,
        arcs,
    })
}

/// The plan that takes each walk as often as the low end of its box says, those of count 0 left out.
pub(crate) fn plan_left(
    alloc: Global,
    walks: &[ListedWalk],
    boxes: &[Span],
) -> Result<Plan, NoMemory>
    requires size { length boxes.now ≡ length walks.now }
    requires each { All IsCountBox boxes.now }
    requires few { length walks.now ≤ 2 ^ 31 }
    ensures plan { IfOk result (λ plan. plan ≡ plan_of (walks_said walks.now) (lows boxes.now)) }
    ensures counted { IfOk result IsCounted }
{
    let mut paths = List::new(alloc);
    for (k, walk) in walks.iter().enumerate() {
        let count = low_count(boxes[k]);
        take_walk(alloc, &mut paths, walk, count)?;
    }
    Ok(Plan { paths })
}
