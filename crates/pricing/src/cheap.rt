ghost use Rattle.std.specs.Prelude.{◌≡◌, ◌<◌, IfOk, length};
ghost use Rattle.route_model.specs.Parts.{graph_in};
ghost use Rattle.pricing.specs.Cheap.{AreCheapest};
ghost use Rattle.pricing.specs.Walks.{HasPartialWalks};

use crate::ranking::cheapest;
use crate::walks::taken_walks;
use label_core::Table;
use path_graph::{List, NoMemory};
use route_labels::{Label, ProofTable};
use route_model::{Model, Taken};
use std::alloc::Global;

/// The walks of a graph with a negative reduced cost that a table of partial walks shows: of its kept entries at the sink,
/// the `k` cheapest, or all where they are fewer, each taken once.
///
/// Of walks that cost the same, the one whose entry stands in the lesser cell comes first, and in a cell the one of the
/// lesser index. `made` is the table of partial walks beside `table`, as `tables` gives it. The time is that of sorting the
/// entries at the sink, and of reading each walk once.
pub fn cheap_walks(
    alloc: Global,
    model: &Model,
    table: &ProofTable,
    made: &Table<Label>,
    k: u32,
) -> Result<List<Taken>, NoMemory>
    requires graph { table.now.graph < length model.now.graphs }
    requires made { HasPartialWalks (graph_in model.now.graphs table.now.graph) made.now.cells }
    ensures { IfOk result (AreCheapest (graph_in model.now.graphs table.now.graph) table.now.graph made.now.cells k) }
{
    let graph = model.graphs.at(table.graph as usize);
    let ranked = cheapest(alloc, graph.ends().sink, made, k)?;
    taken_walks(alloc, graph, table.graph, made, ranked.as_slice())
}
