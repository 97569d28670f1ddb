ghost use Rattle.std.specs.Prelude.{◌≡◌, ◌↔◌, ◌<◌, ◌==◌, ◌^◌, ◌*◌, ◌≤◌, ℤ, pos, ◌≤ℤ◌, ◌<ℤ◌, [], ◌++◌, All, IfOk, OnOk, IsTrue, MatchResult, length, slice_index_or, false};
ghost use Rattle.std.specs.List.{list_any};
ghost use Rattle.std.specs.Prelude.{unsigned_abs};
ghost use Rattle.path_graph.specs.declared.limits.TheConstants.{MAX_PATHS};
ghost use Rattle.path_graph.specs.First.{EachBelow};
ghost use Rattle.route_model.specs.Parts.{taken_at};
ghost use Rattle.route_model.specs.Places.{IsInSpan, SolvesAt, UsesNone, is_dropped, span_at};
ghost use Rattle.route_model.specs.Quantities.{cost_of, is_mapped, is_of, paths_of, quantity, uses_in, value_of};
ghost use Rattle.route_model.specs.Verdicts.{IsCounted, IsVerdict};
ghost use Rattle.route_model.specs.Parts.{ModelParts};
ghost use Rattle.route_model.specs.declared.plan.Plan.{Plan};
ghost use Rattle.route_model.specs.Solution.{IsSolution};
ghost use Rattle.cert_check.specs.Points.{IsAt, taken_if};
ghost use Rattle.proof_rules.specs.Counts.{plan_of};
ghost use Rattle.proof_rules.specs.Nodes.{ArePoints, IsPoint, lows};
ghost use Rattle.cert_check.specs.Frames.{item_of, walk_said, walks_said};
ghost use Rattle.cert_check.specs.Reads.{IsCountBox, IsNodeError, ItemFits};

use crate::fault::{CheckKind, NodeError};
use crate::place::{has_mark, span_of};
use crate::stack::{Listed, Open, Tree};
use certificate::NodeForm;
use path_graph::{List, NoMemory};
use route_model::{Model, Plan, Span, Spot, Taken, Verdict, judge};
use std::alloc::Global;

/// Whether a number lies in a box.
fn is_in_span(span: Span, total: u128) -> bool
    ensures { IsTrue result ↔ IsInSpan span (pos total) }
{
    if span.high < 0 || total > span.high as u128 {
        return false;
    }
    span.low < 0 || span.low as u128 <= total
}

/// Whether an arc, by its number, maps a variable.
fn arc_maps(arcs: &[List<u32>], var: u32, a: u32) -> bool
    ensures { result ≡ list_any (λ i. i == var) (slice_index_or arcs.now a []) }
{
    match arcs.get(a as usize) {
        None => false,
        Some(vars) => vars.as_slice().contains(&var),
    }
}

/// Whether an arc of a graph maps a variable.
fn maps_var(maps: &[List<List<u32>>], var: u32, g: u32, a: u32) -> bool
    ensures { result ≡ is_mapped maps.now var g a }
{
    match maps.get(g as usize) {
        None => false,
        Some(arcs) => arc_maps(arcs.as_slice(), var, a),
    }
}

/// How often a walk uses a variable.
fn uses(maps: &[List<List<u32>>], var: u32, g: u32, arcs: &[u32]) -> u64
    ensures { result ≡ uses_in maps.now var g arcs.now }
{
    let mut count = 0;
    for arc in arcs {
        if maps_var(maps, var, g, *arc) {
            count += 1;
        }
    }
    count
}

/// How often a path of a plan uses a variable.
fn path_uses(maps: &[List<List<u32>>], var: u32, taken: &Taken) -> u128
    requires count { taken.now.count ≤ MAX_PATHS }
    ensures uses { result ≡ taken.now.count * uses_in maps.now var taken.now.graph taken.now.arcs }
    ensures bound { result ≤ 2 ^ 76 }
{
    let once = uses(maps, var, taken.graph, taken.arcs.as_slice());
    u128::from(taken.count) * u128::from(once)
}

/// The value of a variable.
fn value(maps: &[List<List<u32>>], plan: &Plan, var: u32) -> u128
    requires { IsCounted plan.now }
    ensures { result ≡ quantity (uses_in maps.now var) plan.now }
{
    let mut total = 0;
    for taken in plan.paths.as_slice() {
        total += path_uses(maps, var, taken);
    }
    total
}

/// How many paths of a graph there are among those of a path.
fn path_of(g: u32, taken: &Taken) -> u128
    requires count { taken.now.count ≤ MAX_PATHS }
    ensures paths { result ≡ taken.now.count * is_of g taken.now.graph taken.now.arcs }
    ensures bound { result ≤ 2 ^ 76 }
{
    if taken.graph == g {
        u128::from(taken.count)
    } else {
        0
    }
}

/// How many paths of a graph there are.
fn path_count(plan: &Plan, g: u32) -> u128
    requires { IsCounted plan.now }
    ensures { result ≡ paths_of plan.now g }
{
    let mut total = 0;
    for taken in plan.paths.as_slice() {
        total += path_of(g, taken);
    }
    total
}

/// Whether a variable lies in its box at a place.
fn var_within(model: &Model, spot: &Spot, plan: &Plan, j: u32) -> bool
    requires { IsCounted plan.now }
    ensures { IsTrue result ↔ IsInSpan (span_at spot.now.boxes.vars j) (pos (value_of model.now plan.now j)) }
{
    let boxes = spot.boxes.vars.as_slice();
    let maps = model.maps.as_slice();
    let span = span_of(boxes, j);
    let total = value(maps, plan, j);
    is_in_span(span, total)
}

/// Whether each variable lies in its box at a place.
fn vars_within(model: &Model, spot: &Spot, plan: &Plan) -> bool
    requires { IsCounted plan.now }
    ensures { IsTrue result ↔ EachBelow (length model.now.vars)
        (λ j. IsInSpan (span_at spot.now.boxes.vars j) (pos (value_of model.now plan.now j))) }
{
    for j in 0..model.vars.len() as u32 {
        if !var_within(model, spot, plan, j) {
            return false;
        }
    }
    true
}

/// Whether the path count of each graph lies in its box at a place.
fn paths_within(model: &Model, spot: &Spot, plan: &Plan) -> bool
    requires { IsCounted plan.now }
    ensures { IsTrue result ↔ EachBelow (length model.now.graphs)
        (λ g. IsInSpan (span_at spot.now.boxes.paths g) (pos (paths_of plan.now g))) }
{
    for g in 0..model.graphs.len() as u32 {
        let total = path_count(plan, g);
        if !is_in_span(span_of(spot.boxes.paths.as_slice(), g), total) {
            return false;
        }
    }
    true
}

/// Whether arcs of a graph are not dropped.
fn is_kept(spot: &Spot, g: u32, arcs: &[u32]) -> bool
    ensures { IsTrue result ↔ All (λ a. is_dropped spot.now g a ≡ false) arcs.now }
{
    for arc in arcs {
        if has_mark(spot, g, *arc) {
            return false;
        }
    }
    true
}

/// Whether a path of a plan uses no dropped arc.
fn path_kept(spot: &Spot, taken: &Taken) -> bool
    ensures { IsTrue result ↔ All (λ a. is_dropped spot.now taken.now.graph a ≡ false) taken.now.arcs }
{
    is_kept(spot, taken.graph, taken.arcs.as_slice())
}

/// Whether a plan uses no dropped arc.
fn are_kept(spot: &Spot, plan: &Plan) -> bool
    ensures { IsTrue result ↔ UsesNone (is_dropped spot.now) plan.now }
{
    for taken in plan.paths.as_slice() {
        if !path_kept(spot, taken) {
            return false;
        }
    }
    true
}

/// Whether a solution lies in the boxes of a place and uses no dropped arc.
fn is_at(model: &Model, spot: &Spot, plan: &Plan) -> bool
    requires { IsCounted plan.now }
    ensures { IsTrue result ↔ IsAt model.now spot.now plan.now }
{
    if !vars_within(model, spot, plan) {
        return false;
    }
    if !paths_within(model, spot, plan) {
        return false;
    }
    are_kept(spot, plan)
}

/// Whether a verdict tells a cost less than z.
fn costs_below(verdict: Verdict, z: i64) -> bool
    ensures { (m : ModelParts) (plan : Plan) → IsVerdict m plan verdict
        → IsTrue result ↔ (IsSolution m plan × (cost_of m plan <ℤ z)) }
{
    match verdict {
        Verdict::Fine { cost } => cost < z,
        _ => false,
    }
}

/// Whether a plan is a solution of a place that costs less than z.
fn solves_below(model: &Model, z: i64, spot: &Spot, plan: &Plan) -> bool
    requires { IsCounted plan.now }
    ensures { IsTrue result ↔ (SolvesAt model.now spot.now plan.now × (cost_of model.now plan.now <ℤ z)) }
{
    if !costs_below(judge(model, plan), z) {
        return false;
    }
    is_at(model, spot, plan)
}

/// Whether a box is a point.
fn is_point(span: Span) -> bool
    ensures { IsTrue result ↔ (span.low ≡ span.high) }
{
    span.low == span.high
}

/// Whether all boxes are points.
fn are_points(boxes: &[Span]) -> bool
    ensures { IsTrue result ↔ ArePoints boxes.now }
{
    for span in boxes {
        if !is_point(*span) {
            return false;
        }
    }
    true
}

/// The number at the low end of the box of a count.
fn low_count(span: Span) -> u32
    requires { IsCountBox span }
    ensures count { result ≡ unsigned_abs span.low }
    ensures small { result ≤ MAX_PATHS }
{
    span.low as u32
}

/// Puts a walk behind those of a plan, unless its count is 0.
fn take_walk(
    alloc: Global,
    paths: &mut List<Taken>,
    walk: &Listed,
    count: u32,
) -> Result<(), NoMemory>
    ensures { OnOk result (paths.new ≡ paths.old ++ taken_if (walk_said walk.now) count) }
{
    if count == 0 {
        return Ok(());
    }
    let arcs = walk.arcs.copy(alloc)?;
    paths.push(Taken {
        graph: walk.graph,
        count,
        arcs,
    })
}

/// The plan that takes each walk as often as the low end of its box says, those of count 0 left out.
fn plan_left(alloc: Global, walks: &[Listed], boxes: &[Span]) -> Result<Plan, NoMemory>
    requires size { length boxes.now ≡ length walks.now }
    requires each { All IsCountBox boxes.now }
    requires few { length walks.now ≤ 2 ^ 31 }
    ensures plan { IfOk result (λ plan. plan ≡ plan_of (walks_said walks.now) (lows boxes.now)) }
    ensures counted { IfOk result IsCounted }
{
    let mut paths = List::new(alloc);
    for (k, walk) in walks.iter().enumerate() {
        let count = low_count(boxes[k]);
        take_walk(alloc, &mut paths, walk, count)?;
    }
    Ok(Plan { paths })
}

/// Checks that the counts are points, and that the one plan left is no solution of the place that costs less than z.
pub(crate) fn judge_point(
    alloc: Global,
    model: &Model,
    z: i64,
    tree: &Tree,
) -> Result<(), NodeError>
    requires { ItemFits model.now (item_of tree.now Open.Counts) }
    ensures { MatchResult result (λ _. IsPoint model.now z tree.now.spot (walks_said tree.now.walks) tree.now.boxes)
        (IsNodeError model.now z (item_of tree.now Open.Counts) NodeForm.Point) }
{
    if !are_points(tree.boxes.as_slice()) {
        return Err(NodeError::Fault(CheckKind::Point));
    }
    match plan_left(alloc, tree.walks.as_slice(), tree.boxes.as_slice()) {
        Err(_) => Err(NodeError::Memory),
        Ok(plan) => {
            if solves_below(model, z, &tree.spot, &plan) {
                Err(NodeError::Fault(CheckKind::Point))
            } else {
                Ok(())
            }
        }
    }
}
