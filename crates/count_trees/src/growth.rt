ghost use Rattle.std.specs.Prelude.{◌≡◌, ◌<◌, ◌∷◌, ◌++◌, [], None, IfOk, length, slice_set};
ghost use Rattle.route_model.specs.PlaceParts.{high_part, low_part};
ghost use Rattle.route_model.specs.Places.{span_at};
ghost use Rattle.cert_check.specs.Reads.{IsCountBox};
ghost use Rattle.count_trees.specs.Rounds.{AddsNode, AddsParts, IsStart, IsTold, TakesFound};

use made_nodes::MadeNode;
use path_graph::{List, NoMemory};
use route_model::{Plan, Span};
use std::alloc::Global;

/// A tree over counts that was grown: its nodes in preorder, and the counts that are still open, each by its boxes.
///
/// The last open counts come first in the order of the tree. `z` is the cost to beat, which has fallen where a better plan
/// was found.
#[derive(Debug, Drop)]
pub struct CountGrowth {
    pub nodes: Vec<MadeNode>,
    pub rest: Vec<List<Span>>,
    pub z: i64,
    pub best: Option<Plan>,
}

/// A tree over counts while it grows.
#[derive(Drop)]
pub(crate) struct Growth {
    pub nodes: List<MadeNode>,
    pub rest: List<List<Span>>,
    pub z: i64,
    pub best: Option<Plan>,
}

/// A plan that costs less than the cost to beat.
#[derive(Drop)]
pub(crate) struct Found {
    pub cost: i64,
    pub plan: Plan,
}

/// A tree without nodes: counts in these boxes are open.
pub(crate) fn first_growth(alloc: Global, boxes: List<Span>, z: i64) -> Result<Growth, NoMemory>
    ensures { IfOk result (IsStart boxes z) }
{
    let mut rest = List::new(alloc);
    rest.push(boxes)?;
    Ok(Growth {
        nodes: List::new(alloc),
        rest,
        z,
        best: None,
    })
}

/// One node more.
pub(crate) fn with_node(growth: Growth, node: MadeNode) -> Result<Growth, NoMemory>
    ensures { IfOk result (AddsNode growth node) }
{
    let mut nodes = growth.nodes;
    nodes.push(node)?;
    Ok(Growth {
        nodes,
        rest: growth.rest,
        z: growth.z,
        best: growth.best,
    })
}

/// The best plan so far.
pub(crate) fn with_found(growth: Growth, found: Option<Found>) -> Growth
    ensures { TakesFound growth found result }
{
    match found {
        None => growth,
        Some(found) => Growth {
            nodes: growth.nodes,
            rest: growth.rest,
            z: found.cost,
            best: Some(found.plan),
        },
    }
}

/// The boxes where one is its low end alone.
fn low_boxes(alloc: Global, boxes: &List<Span>, i: usize) -> Result<List<Span>, NoMemory>
    requires { i < length boxes.now }
    ensures { IfOk result (λ low. low ≡ slice_set boxes.now i (low_part (span_at boxes.now i) (span_at boxes.now i).low)) }
{
    let low = boxes.at(i).low;
    let mut part = boxes.copy(alloc)?;
    part.set(i, Span { low, high: low });
    Ok(part)
}

/// The boxes where one is without its low end.
fn high_boxes(boxes: List<Span>, i: usize) -> List<Span>
    requires inside { i < length boxes }
    requires span { IsCountBox (span_at boxes i) }
    ensures { result ≡ slice_set boxes i (high_part (span_at boxes i) (span_at boxes i).low) }
{
    let span = *boxes.at(i);
    let mut part = boxes;
    part.set(
        i,
        Span {
            low: span.low + 1,
            high: span.high,
        },
    );
    part
}

/// Both parts of a box are open, and the lower is taken next.
pub(crate) fn with_parts(
    alloc: Global,
    growth: Growth,
    boxes: List<Span>,
    i: usize,
) -> Result<Growth, NoMemory>
    requires inside { i < length boxes }
    requires span { IsCountBox (span_at boxes i) }
    ensures { IfOk result (AddsParts growth boxes i) }
{
    let low = low_boxes(alloc, &boxes, i)?;
    let high = high_boxes(boxes, i);
    let mut rest = growth.rest;
    rest.push(high)?;
    rest.push(low)?;
    Ok(Growth {
        nodes: growth.nodes,
        rest,
        z: growth.z,
        best: growth.best,
    })
}

/// What was grown.
pub(crate) fn told(growth: Growth) -> CountGrowth
    ensures { IsTold growth result }
{
    CountGrowth {
        nodes: growth.nodes.into_vec(),
        rest: growth.rest.into_vec(),
        z: growth.z,
        best: growth.best,
    }
}
