ghost use Rattle.std.specs.Prelude.{◌≡◌, ◌≤◌, ◌^◌, IfOk};
ghost use Rattle.route_model.specs.Fit.{ModelFits, cost_range};
ghost use Rattle.vrp_demo.specs.Arcs.{all_pairs};
ghost use Rattle.vrp_demo.specs.Generated.{one_graph, model_over, generated};
ghost use Rattle.vrp_demo.specs.Sound.{AreStops};

use crate::arcs::{Pair, pairs_of, variables_over};
use crate::network::graph_over;
use crate::rows::{maps_of, rows_over};
use crate::stops::{Stop, stops_of};
use path_graph::{Graph, List, NoMemory};
use route_model::{BuildFault, Model, Row, Var};
use std::alloc::Global;

/// The model of one graph, whose arc `k` maps variable `k` alone.
fn build_over(
    alloc: Global,
    sets: u16,
    graph: Graph,
    vars: List<Var>,
    rows: List<Row>,
) -> Result<Model, NoMemory>
    requires fits { ModelFits (one_graph sets graph vars rows) }
    requires costs { cost_range vars ≤ 2 ^ 40 }
    ensures { IfOk result (λ model. model ≡ one_graph sets graph vars rows) }
{
    let arcs = maps_of(alloc, graph.arc_count())?;
    let mut maps = List::new(alloc);
    maps.push(arcs)?;
    let mut graphs = List::new(alloc);
    graphs.push(graph)?;
    match Model::build(alloc, vars, rows, sets, graphs, maps) {
        Ok(model) => Ok(model),
        Err(BuildFault::CostRange) => unreachable!(),
        Err(BuildFault::Memory) => Err(NoMemory),
    }
}

/// The model of the stops and of the pairs of its arcs.
fn model_over(alloc: Global, size: u32, stops: &[Stop], pairs: &[Pair]) -> Result<Model, NoMemory>
    requires size { size ≤ 100 }
    requires stops { AreStops size stops.now }
    requires pairs { pairs.now ≡ all_pairs size }
    ensures { IfOk result (λ model. model ≡ model_over size stops.now) }
{
    let graph = graph_over(alloc, size, stops, pairs)?;
    let vars = variables_over(alloc, stops, pairs)?;
    let rows = rows_over(alloc, size, &graph)?;
    build_over(alloc, size as u16, graph, vars, rows)
}

/// The model of a seed and a number of customers, the same for each call.
///
/// The seed is 0 to 65,536 and the size 1 to 100. The depot and the customers lie on a grid of 100 by 100. A customer
/// takes 1 to 4 units of load, a vehicle carries 10, and a path costs its length in steps along the grid. There are
/// size × (size + 1) arcs and variables. The only error is want of memory.
pub fn make_model(alloc: Global, seed: u32, size: u32) -> Result<Model, NoMemory>
    requires seed { seed ≤ 65536 }
    requires size { (1 ≤ size) × (size ≤ 100) }
    ensures { IfOk result (λ model. model ≡ generated seed size) }
{
    let stops = stops_of(alloc, seed, size)?;
    let pairs = pairs_of(alloc, size)?;
    model_over(alloc, size, stops.as_slice(), pairs.as_slice())
}
