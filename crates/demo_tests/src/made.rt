//! What the generator makes, beside what another program made of the same seeds and sizes.

use model_text::print_model;
use path_graph::Graph;
use route_model::Model;
use std::alloc::Global;
use std::test::Fail;
use vrp_demo::make_model;

/// The model of seed 7 and two customers.
const OF_TWO: &str = "vrpmodel 1
var 0 1 181
var 0 1 138
var 0 1 43
var 0 1 181
var 0 1 43
var 0 1 138
row 1 1 0 1 4 1
row 1 1 1 1 2 1
sets 2
graph 4 0 3 0 2 1 0
vertex - 0 10
vertex 0 0 10
vertex 1 0 10
vertex - 0 10
arc 0 1 2 0
arc 0 2 3 1
arc 1 2 3 2
arc 1 3 0 3
arc 2 1 2 4
arc 2 3 0 5
end
";

/// A seed and a size, then the numbers of vertices, arcs, variables, rows and packing sets, the demand of the first
/// customer, and the costs of the first and the last variable.
const MADE: &[([u32; 2], [i64; 8])] = &[
    ([0, 1], [3, 2, 2, 1, 1, 2, 88, 88]),
    ([7, 10], [12, 110, 110, 10, 10, 2, 181, 26]),
    ([7, 12], [14, 156, 156, 12, 12, 2, 181, 60]),
    ([12_345, 7], [9, 56, 56, 7, 7, 1, 70, 48]),
    ([65_536, 3], [5, 12, 12, 3, 3, 1, 0, 0]),
    ([1, 100], [102, 10_100, 10_100, 100, 100, 4, 49, 71]),
];

/// The model of a seed and a size in their limits.
fn made(alloc: Global, seed: u32, size: u32) -> Result<Model, Fail> {
    if seed > 65_536 || size == 0 || size > 100 {
        return Err(Fail::new("a seed or a size beyond its limits"));
    }
    Ok(make_model(alloc, seed, size)?)
}

/// The demand of the head of the first arc.
fn first_demand(graph: &Graph) -> Result<i64, Fail> {
    if graph.arc_count() == 0 {
        return Err(Fail::new("a graph without arcs"));
    }
    let arc = graph.arc(0);
    Ok(i64::from(arc.needs[0]))
}

/// The numbers of a model, as in `MADE`.
fn numbers_of(model: &Model) -> Result<[i64; 8], Fail> {
    let [graph] = model.graphs.as_slice() else {
        return Err(Fail::new("not one graph"));
    };
    let [first, .., last] = model.vars.as_slice() else {
        return Err(Fail::new("fewer than two variables"));
    };
    Ok([
        i64::from(graph.vertex_count()),
        i64::from(graph.arc_count()),
        model.vars.len() as i64,
        model.rows.len() as i64,
        i64::from(model.sets),
        first_demand(graph)?,
        first.cost,
        last.cost,
    ])
}

#[test]
fn numbers(rt: HostRuntime) -> Result<(), Fail> {
    for ([seed, size], numbers) in MADE {
        let model = made(rt.alloc(), *seed, *size)?;
        assert_eq!(rt; numbers_of(&model)?, *numbers, "{seed} {size}");
    }
    Ok(())
}

#[test]
fn text(rt: HostRuntime) -> Result<(), Fail> {
    let model = made(rt.alloc(), 7, 2)?;
    let text = print_model(rt.alloc(), &model)?;
    assert_eq!(rt; text.as_slice(), OF_TWO.as_bytes());
    Ok(())
}
