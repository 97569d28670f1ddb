ghost use Rattle.std.specs.Prelude.{◌≡◌, ◌+◌, ◌≤◌, ◌<◌, IfOk, map};
ghost use Rattle.std.specs.List.{range_with_len};
ghost use Rattle.path_graph.specs.Fit.{PartsFit};
ghost use Rattle.vrp_demo.specs.Network.{set_of, vertex_of, vertices, ends_of, graph_over};
ghost use Rattle.vrp_demo.specs.Arcs.{all_pairs};
ghost use Rattle.vrp_demo.specs.Sound.{AreStops};

use crate::arcs::{Pair, arcs_over};
use crate::stops::Stop;
use path_graph::{Ends, Graph, GraphArc, GraphFault, List, NoMemory, Vertex, Window};
use std::alloc::Global;

/// The packing set of a vertex: each customer has its own, the source and the sink have none.
fn set_of(size: u32, v: u32) -> Option<u16>
    requires { size ≤ 100 }
    ensures { result ≡ set_of size v }
{
    if 1 <= v && v <= size {
        Some((v - 1) as u16)
    } else {
        None
    }
}

/// A vertex: what a vehicle has delivered there is 0 to 10 units of load.
fn vertex_of(size: u32, v: u32) -> Vertex
    requires { size ≤ 100 }
    ensures { result ≡ vertex_of size v }
{
    let load = Window { low: 0, high: 10 };
    let none = Window { low: 0, high: 0 };
    Vertex {
        set: set_of(size, v),
        windows: [load, none, none, none, none, none],
    }
}

/// The source, the customers and the sink.
fn vertices_of(alloc: Global, size: u32) -> Result<List<Vertex>, NoMemory>
    requires { size ≤ 100 }
    ensures { IfOk result (λ them. them ≡ vertices size) }
{
    let mut vertices = List::new(alloc);
    for v in 0..size + 2 {
        vertices.push(vertex_of(size, v))?;
    }
    Ok(vertices)
}

/// At most a path for each customer, of one main resource.
fn ends_of(size: u32) -> Ends
    requires { size ≤ 100 }
    ensures { result ≡ ends_of size }
{
    Ends {
        source: 0,
        sink: size + 1,
        low: 0,
        high: size,
        mains: 1,
        seconds: 0,
    }
}

/// The graph of the stops and of the pairs of its arcs.
pub(crate) fn graph_over(
    alloc: Global,
    size: u32,
    stops: &[Stop],
    pairs: &[Pair],
) -> Result<Graph, NoMemory>
    requires size { size ≤ 100 }
    requires stops { AreStops size stops.now }
    requires pairs { pairs.now ≡ all_pairs size }
    ensures { IfOk result (λ graph. graph ≡ graph_over size stops.now) }
{
    let vertices = vertices_of(alloc, size)?;
    let arcs = arcs_over(alloc, stops, pairs)?;
    match Graph::new(alloc, ends_of(size), vertices.as_slice(), arcs.as_slice()) {
        Ok(graph) => Ok(graph),
        Err(GraphFault::FreeCycle(_)) => unreachable!(),
        Err(GraphFault::Memory) => Err(NoMemory),
    }
}
