ghost use Rattle.std.specs.Prelude.{◌≡◌, ℕ, ◌↔◌, ◌+◌, ◌*◌, ◌<◌, ◌≤◌, ◌^◌, ℤ, pos, ◌+ℤ◌, ◌-ℤ◌, ◌*ℤ◌, ◌<ℤ◌, [], All, IfSome, IsSomeAnd, MatchOption, MatchResult, IsTrue, length, slice_index_or, unsigned_abs};
ghost use Rattle.path_graph.specs.Fit.{int_at};
ghost use Rattle.path_graph.specs.Visits.{visit_over};
ghost use Rattle.path_graph.specs.Sums.{sum_over};
ghost use Rattle.path_graph.specs.Within.{IsWithin};
ghost use Rattle.route_model.specs.Places.{BoxesFit};
ghost use Rattle.route_model.specs.Terms.{or_zero, sides_of, term};
ghost use Rattle.multipliers.specs.Priced.{priced_walk, visit_cost as visit_cost_of};
ghost use Rattle.multipliers.specs.Quantities.{reduced_cost, scaled};
ghost use Rattle.multipliers.specs.Ranges.{MultFits};
ghost use Rattle.proof_rules.specs.Nodes.{IsCountClose};
ghost use Rattle.cert_check.specs.Costs.{IsCountPriced, IsSideError, IsTermSum, IsWalkTerm, step_cost as step_cost_of, tops};
ghost use Rattle.cert_check.specs.Frames.{item_of, walk_said, walks_said};
ghost use Rattle.cert_check.specs.Reads.{IsCountBox, IsNodeError, ItemFits, WalkFits};

use crate::fault::{CheckKind, NodeError};
use crate::stack::{Listed, Open, Tree};
use certificate::NodeForm;
use multipliers::priced;
use path_graph::{Graph, List};
use route_model::wide::{minus, plus, product};
use route_model::{Boxes, Model, Mult, MultFault, Priced, SCALE, Span};
use std::alloc::Global;

/// The most that a reduced cost of a listed walk may be away from 0.
const MAX_REDUCED: i128 = 309485009821345068724781056;

/// What multipliers without cuts are priced to at boxes.
fn count_prices(
    alloc: Global,
    model: &Model,
    boxes: &Boxes,
    mult: &Mult,
) -> Result<Priced, NodeError>
    requires boxes { BoxesFit model.now boxes.now }
    requires mult { MultFits model.now mult.now }
    requires none { mult.now.cuts ≡ [] }
    ensures { MatchResult result (IsCountPriced model.now boxes.now mult.now) (IsSideError model.now boxes.now mult.now) }
{
    match priced(alloc, model, boxes, &[], mult) {
        Ok(priced) => Ok(priced),
        Err(MultFault::OpenSide(_)) => Err(NodeError::Fault(CheckKind::Side)),
        Err(MultFault::Memory) => Err(NodeError::Memory),
    }
}

/// A number by its place; 0 past the end.
fn number_at(numbers: &[i128], k: usize) -> i128
    ensures number { result ≡ int_at numbers.now k }
    ensures small { (n : ℕ) → All (IsWithin n) numbers.now → IsWithin n result }
{
    match numbers.get(k) {
        None => 0,
        Some(number) => *number,
    }
}

/// The costs of the arcs of a graph; none past the end.
fn arcs_at(costs: &List<List<i128>>, g: u32) -> &[i128]
    ensures { result.now ≡ slice_index_or costs.now g [] }
{
    match costs.as_slice().get(g as usize) {
        None => &[],
        Some(arcs) => arcs.as_slice(),
    }
}

/// The cost of the visit that an arc makes.
fn visit_cost(graph: &Graph, visits: &[i128], arc: u32) -> i128
    requires { arc < length graph.now.arcs }
    ensures cost { result ≡ visit_cost_of visits.now (visit_over graph.now arc) }
    ensures small { (n : ℕ) → All (IsWithin n) visits.now → IsWithin n result }
{
    match graph.vertex(graph.arc(arc).head).set {
        None => 0,
        Some(set) => number_at(visits, set as usize),
    }
}

/// The cost of an arc and of the visit that it makes.
fn step_cost(graph: &Graph, arcs: &[i128], visits: &[i128], arc: u32) -> i128
    requires there { arc < length graph.now.arcs }
    requires arcs { All (IsWithin (2 ^ 72 + 2 ^ 53)) arcs.now }
    requires visits { All (IsWithin (2 ^ 48)) visits.now }
    ensures cost { result ≡ step_cost_of graph.now arcs.now visits.now arc }
    ensures small { IsWithin (2 ^ 73) result }
{
    let along = number_at(arcs, arc as usize);
    let visit = visit_cost(graph, visits, arc);
    plus(along, visit)
}

/// The cost of arcs from a start on.
fn cost_along(graph: &Graph, arcs: &[i128], visits: &[i128], start: i128, walk: &[u32]) -> i128
    requires there { All (λ a. a < length graph.now.arcs) walk.now }
    requires arcs { All (IsWithin (2 ^ 72 + 2 ^ 53)) arcs.now }
    requires visits { All (IsWithin (2 ^ 48)) visits.now }
    requires start { IsWithin (2 ^ 48) start }
    requires few { length walk.now ≤ 2 ^ 25 }
    ensures cost { result ≡ start +ℤ sum_over (step_cost_of graph.now arcs.now visits.now) walk.now }
    ensures small { IsWithin (2 ^ 100) result }
{
    let mut total = start;
    for arc in walk {
        total = plus(total, step_cost(graph, arcs, visits, *arc));
    }
    total
}

/// The reduced cost of a listed walk.
fn walk_cost(model: &Model, priced: &Priced, walk: &Listed) -> i128
    requires fits { WalkFits model.now (walk_said walk.now) }
    requires arcs { All (All (IsWithin (2 ^ 72 + 2 ^ 53))) priced.now.arcs }
    requires visits { All (IsWithin (2 ^ 48)) priced.now.visits }
    requires starts { All (IsWithin (2 ^ 48)) priced.now.starts }
    ensures cost { result ≡ priced_walk model.now priced.now walk.now.graph walk.now.arcs }
    ensures small { IsWithin (2 ^ 100) result }
{
    let graph = model.graphs.at(walk.graph as usize);
    let arcs = arcs_at(&priced.arcs, walk.graph);
    let starts = priced.starts.as_slice();
    let start = number_at(starts, walk.graph as usize);
    let visits = priced.visits.as_slice();
    let along = walk.arcs.as_slice();
    cost_along(graph, arcs, visits, start, along)
}

/// A reduced cost times a number of paths.
fn times_paths(cost: i128, paths: i64) -> i128
    requires cost { IsWithin (2 ^ 88) cost }
    requires paths { IsWithin 4096 paths }
    ensures { result ≡ cost *ℤ paths }
{
    cost * i128::from(paths)
}

/// The term of a reduced cost over the box of a count.
fn count_term(cost: i128, span: Span) -> i128
    requires cost { IsWithin (2 ^ 88) cost }
    requires span { IsCountBox span }
    ensures term { result ≡ or_zero (term cost (sides_of span)) }
    ensures small { IsWithin (2 ^ 88 * unsigned_abs span.high) result }
{
    if cost >= 0 {
        return times_paths(cost, span.low);
    }
    times_paths(cost, span.high)
}

/// Whether a reduced cost is near enough to 0.
fn is_near(cost: i128) -> bool
    ensures { IsTrue result ↔ IsWithin (2 ^ 88) cost }
{
    -MAX_REDUCED <= cost && cost <= MAX_REDUCED
}

/// The term of a listed walk over the box of its count, unless its reduced cost is too far from 0.
fn walk_term(model: &Model, priced: &Priced, walk: &Listed, span: Span) -> Option<i128>
    requires fits { WalkFits model.now (walk_said walk.now) }
    requires span { IsCountBox span }
    requires arcs { All (All (IsWithin (2 ^ 72 + 2 ^ 53))) priced.now.arcs }
    requires visits { All (IsWithin (2 ^ 48)) priced.now.visits }
    requires starts { All (IsWithin (2 ^ 48)) priced.now.starts }
    ensures { IsWalkTerm model.now priced.now (walk_said walk.now) span result }
{
    let cost = walk_cost(model, priced, walk);
    if !is_near(cost) {
        return None;
    }
    Some(count_term(cost, span))
}

/// The terms of walks over the boxes of their counts, unless some reduced cost is too far from 0.
fn term_sum(model: &Model, priced: &Priced, walks: &[Listed], boxes: &[Span]) -> Option<i128>
    requires size { length boxes.now ≡ length walks.now }
    requires walks { All (WalkFits model.now) (walks_said walks.now) }
    requires boxes { All IsCountBox boxes.now }
    requires few { tops boxes.now ≤ 2 ^ 37 }
    requires arcs { All (All (IsWithin (2 ^ 72 + 2 ^ 53))) priced.now.arcs }
    requires visits { All (IsWithin (2 ^ 48)) priced.now.visits }
    requires starts { All (IsWithin (2 ^ 48)) priced.now.starts }
    ensures { IsTermSum model.now priced.now (walks_said walks.now) boxes.now result }
{
    let mut total = 0;
    for (k, walk) in walks.iter().enumerate() {
        match walk_term(model, priced, walk, boxes[k]) {
            None => return None,
            Some(term) => total = plus(total, term),
        }
    }
    Some(total)
}

/// 65,536 × (z - 1).
fn scaled_below(z: i64) -> i128
    ensures scaled { result ≡ scaled (z -ℤ pos 1) }
    ensures range { IsWithin (2 ^ 80) result }
{
    minus(product(SCALE, z), i128::from(SCALE))
}

/// Whether the terms of the place and of the walks close the counts against z.
fn closes(base: i128, terms: Option<i128>, z: i64) -> bool
    requires base { IsWithin (2 ^ 107) base }
    requires terms { IfSome terms (IsWithin (2 ^ 125)) }
    ensures { IsTrue result ↔ IsSomeAnd terms (λ total. scaled (z -ℤ pos 1) <ℤ (base +ℤ total)) }
{
    match terms {
        None => false,
        Some(total) => scaled_below(z) < plus(base, total),
    }
}

/// Checks that multipliers without cuts close the counts against z.
pub(crate) fn close_counts(
    alloc: Global,
    model: &Model,
    z: i64,
    tree: &Tree,
    mult: &Mult,
) -> Result<(), NodeError>
    requires fits { ItemFits model.now (item_of tree.now Open.Counts) }
    requires mult { MultFits model.now mult.now }
    requires none { mult.now.cuts ≡ [] }
    ensures { MatchResult result (λ _. IsCountClose model.now z tree.now.spot (walks_said tree.now.walks) tree.now.boxes mult.now)
        (IsNodeError model.now z (item_of tree.now Open.Counts) (NodeForm.CountClose mult.now)) }
{
    match count_prices(alloc, model, &tree.spot.boxes, mult) {
        Err(error) => Err(error),
        Ok(priced) => {
            let terms = term_sum(model, &priced, tree.walks.as_slice(), tree.boxes.as_slice());
            if closes(priced.base, terms, z) {
                Ok(())
            } else {
                Err(NodeError::Fault(CheckKind::Bound))
            }
        }
    }
}
