//! Near lists that are widened by a walk that comes back to a set.

ghost use Rattle.std.specs.Prelude.{◌<◌, IfOk, IsTrue, length, OnOk};
ghost use Rattle.ng_sets.specs.Near.{FitsGraphs};
ghost use Rattle.ng_sets.specs.Widening.{VisitsTwice};

use model_text::read_model;
use ng_sets::{Near, widen};
use path_graph::{Graph, SetBits, is_walk};
use route_model::Model;
use std::test::Fail;

/// Two customers, vertices 1 and 2 in the sets 0 and 1, with time for three stops.
const THREE_STOPS: &str = "vrpmodel 1
var 0 2 3
var 0 2 4
var 0 2 2
var 0 2 5
var 0 2 3
var 0 2 4
row 1 1 0 1 3 1
row 1 1 1 1 2 1
sets 2
graph 4 0 3 0 2 1 0
vertex - 0 3
vertex 0 0 3
vertex 1 0 3
vertex - 0 3
arc 0 1 1 0
arc 0 2 1 1
arc 1 2 1 2
arc 2 1 1 3
arc 1 3 0 4
arc 2 3 0 5
end
";

/// Whether a walk visits the same set at two places.
fn comes_back(graph: &Graph, arcs: &[u32], i: usize, j: usize) -> bool
    ensures { IsTrue result → VisitsTwice graph.now arcs.now }
{
    if i >= j || j >= arcs.len() || arcs[i] >= graph.arc_count() || arcs[j] >= graph.arc_count() {
        return false;
    }
    match graph.vertex(graph.arc(arcs[i]).head).set {
        Some(set) => graph.vertex(graph.arc(arcs[j]).head).set == Some(set),
        None => false,
    }
}

/// How many lists of graph 0 grow by a walk of it that visits the same set at two places.
fn widened(near: &mut Near, model: &Model, arcs: &[u32], i: usize, j: usize) -> Result<u32, Fail>
    requires near { FitsGraphs near.old model.now.graphs }
    requires graph { 0 < length model.now.graphs }
    ensures { OnOk result (FitsGraphs near.new model.now.graphs) }
{
    let _sets = model.sets;
    let graph = model.graphs.at(0);
    if !is_walk(graph, arcs) || !comes_back(graph, arcs, i, j) {
        return Err(Fail::new("no walk that comes back"));
    }
    Ok(widen(near, graph, 0, arcs))
}

/// The sets near a vertex of graph 0.
fn sets_at(near: &Near, model: &Model, v: u32) -> Result<SetBits, Fail>
    requires near { FitsGraphs near.now model.now.graphs }
    requires graph { 0 < length model.now.graphs }
{
    let _sets = model.sets;
    let graph = model.graphs.at(0);
    if v >= graph.vertex_count() {
        return Err(Fail::new("no vertex"));
    }
    Ok(near.at(0, v))
}

#[test]
fn lists_between_two_visits(rt: HostRuntime) -> Result<(), Fail> {
    let model = read_model(rt.alloc(), THREE_STOPS.as_bytes())?;
    if model.graphs.is_empty() {
        return Err(Fail::new("no graph"));
    }
    let mut near = Near::new(rt.alloc(), model.graphs.as_slice())?;
    let walk = [0, 2, 3, 4];
    assert_eq!(rt;
        widened(&mut near, &model, &walk, 0, 2)?,
        1,
        "one list grows"
    );
    let first = SetBits::empty().with(0);
    assert_eq!(rt;
        sets_at(&near, &model, 2)?,
        first,
        "that of the vertex between"
    );
    assert_eq!(rt;
        sets_at(&near, &model, 1)?,
        SetBits::empty(),
        "no other list grows"
    );
    assert_eq!(rt;
        widened(&mut near, &model, &walk, 0, 2)?,
        0,
        "it has grown already"
    );
    Ok(())
}
