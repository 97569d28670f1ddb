//! Walks that are put into the pool, and near lists that they widen.

ghost use Rattle.std.specs.Prelude.{◌≡◌, ◌<◌, All, IfSome, IsTrue, length};
ghost use Rattle.path_graph.specs.declared.limits.TheConstants.{MAX_SETS};
ghost use Rattle.ng_sets.specs.Near.{FitsGraphs};
ghost use Rattle.ng_sets.specs.Returns.{AreThere};
ghost use Rattle.ng_sets.specs.Widening.{VisitsTwice, set_entered};
ghost use Rattle.column_rounds.specs.Columns.{AreColumnsOf};
ghost use Rattle.column_rounds.specs.Walks.{IsWalkIn};

use crate::columns::Columns;
use column_pool::{Known, MAX_WALK_ARCS};
use ng_sets::{Near, widen};
use path_graph::{Graph, NoMemory, SetBits};
use route_model::{Model, Taken};

/// Puts walks into the pool; answers whether one was not there.
pub(crate) fn add_walks(
    columns: &mut Columns,
    model: &Model,
    walks: &[Taken],
) -> Result<bool, NoMemory>
    requires columns { AreColumnsOf model.now columns.old }
    requires walks { All (IsWalkIn model.now) walks.now }
    ensures { AreColumnsOf model.now columns.new }
{
    let mut is_any = false;
    for walk in walks {
        if is_added(columns, model, walk)? {
            is_any = true;
        }
    }
    Ok(is_any)
}

/// Puts a walk into the pool; answers whether it was not there.
fn is_added(columns: &mut Columns, model: &Model, walk: &Taken) -> Result<bool, NoMemory>
    requires columns { AreColumnsOf model.now columns.old }
    requires walk { IsWalkIn model.now walk.now }
    ensures { AreColumnsOf model.now columns.new }
{
    let arcs = walk.arcs.as_slice();
    if arcs.len() > MAX_WALK_ARCS {
        return Ok(false);
    }
    match columns.pool.add(model, walk.graph, arcs) {
        Known::New(_) => Ok(true),
        Known::Had(_) => Ok(false),
        Known::Memory => Err(NoMemory),
    }
}

/// Widens near lists by the walks that come back to a set, at most so many times; answers how often.
pub(crate) fn widen_by(near: &mut Near, model: &Model, walks: &[Taken], most: u32) -> u32
    requires near { FitsGraphs near.old model.now.graphs }
    requires walks { All (IsWalkIn model.now) walks.now }
    ensures { FitsGraphs near.new model.now.graphs }
{
    let mut times = 0;
    for walk in walks {
        if times < most && is_widened(near, model, walk) {
            times += 1;
        }
    }
    times
}

/// Widens near lists by a walk, where it comes back to a set.
fn is_widened(near: &mut Near, model: &Model, walk: &Taken) -> bool
    requires near { FitsGraphs near.old model.now.graphs }
    requires walk { IsWalkIn model.now walk.now }
    ensures { FitsGraphs near.new model.now.graphs }
{
    let _sets = model.sets;
    let graph = model.graphs.at(walk.graph as usize);
    let arcs = walk.arcs.as_slice();
    if !comes_back(graph, arcs) {
        return false;
    }
    widen(near, graph, walk.graph, arcs) > 0
}

/// Whether a walk visits some packing set twice.
fn comes_back(graph: &Graph, arcs: &[u32]) -> bool
    requires { AreThere graph.now arcs.now }
    ensures { IsTrue result → VisitsTwice graph.now arcs.now }
{
    let mut seen = SetBits::empty();
    for arc in arcs {
        if let Some(set) = set_of(graph, *arc) {
            if seen.has(set) {
                return true;
            }
            seen = seen.with(set);
        }
    }
    false
}

/// The packing set that an arc enters.
fn set_of(graph: &Graph, arc: u32) -> Option<u16>
    requires { arc < length graph.now.arcs }
    ensures set { result ≡ set_entered graph.now arc }
    ensures fits { IfSome result (λ s. s < MAX_SETS) }
{
    graph.vertex(graph.arc(arc).head).set
}
