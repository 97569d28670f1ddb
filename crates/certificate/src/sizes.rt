ghost use Rattle.std.specs.Prelude.{◌≡◌, map, IfOk};
ghost use Rattle.certificate.specs.Sizes.{graph_sizes, sizes_of, SizesFit};

use path_graph::{Ends, Graph, List, NoMemory};
use route_model::Model;
use std::alloc::Global;

/// How many vertices a graph has, and its ends, which tell its resources.
#[derive(Clone, Copy, Debug, PartialEq, Eq)]
pub struct GraphSizes {
    pub vertices: u32,
    pub ends: Ends,
}

/// What of a model the text of a certificate rests on: how many variables, rows and packing sets there are, and the sizes
/// of each graph.
#[derive(Drop)]
pub struct Sizes {
    pub vars: u32,
    pub rows: u32,
    pub sets: u16,
    pub graphs: List<GraphSizes>,
}

/// What the label lines of a table show: the vertices and the ends of its graph, the packing sets of the model, and how
/// many cuts the proof has.
#[derive(Clone, Copy, Debug, PartialEq, Eq)]
pub struct Shape {
    pub vertices: u32,
    pub ends: Ends,
    pub sets: u16,
    pub cuts: usize,
}

/// The sizes of each graph.
fn graph_sizes(alloc: Global, graphs: &[Graph]) -> Result<List<GraphSizes>, NoMemory>
    ensures { IfOk result (λ sizes. sizes ≡ map graph_sizes graphs.now) }
{
    let mut sizes = List::new(alloc);
    for graph in graphs {
        let ends = graph.ends();
        let vertices = graph.vertex_count();
        sizes.push(GraphSizes { vertices, ends })?;
    }
    Ok(sizes)
}

/// The sizes of a model.
pub fn sizes_of(alloc: Global, model: &Model) -> Result<Sizes, NoMemory>
    ensures is { IfOk result (λ sizes. sizes ≡ sizes_of model.now) }
    ensures fit { IfOk result SizesFit }
{
    let vars = model.vars.len() as u32;
    let rows = model.rows.len() as u32;
    let graphs = graph_sizes(alloc, model.graphs.as_slice())?;
    Ok(Sizes {
        vars,
        rows,
        sets: model.sets,
        graphs,
    })
}
