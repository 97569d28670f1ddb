ghost use Rattle.std.specs.Prelude.{◌≡◌, IfOk, OnOk, All};
ghost use Rattle.std.specs.List.{AllZip};
ghost use Rattle.pricing.specs.Cheap.{IsCheap, IsTakenFrom};
ghost use Rattle.pricing.specs.Walks.{AreChoices, HasPartialWalks, arcs_chosen};

use crate::ranking::Ranked;
use label_core::{Place, Table, walk_of};
use path_graph::{Graph, List, NoMemory};
use route_labels::Label;
use route_model::Taken;
use std::alloc::Global;

/// The walks of cheap entries, each taken once.
pub(crate) fn taken_walks(
    alloc: Global,
    graph: &Graph,
    number: u32,
    made: &Table<Label>,
    ranked: &[Ranked],
) -> Result<List<Taken>, NoMemory>
    requires made { HasPartialWalks graph.now made.now.cells }
    requires cheap { All (IsCheap graph.now.ends.sink made.now.cells) ranked.now }
    ensures { IfOk result (λ walks. AllZip (IsTakenFrom graph.now number made.now.cells) ranked.now walks) }
{
    let mut walks = List::new(alloc);
    for rank in ranked {
        walks.push(taken_walk(alloc, graph, number, made, rank)?)?;
    }
    Ok(walks)
}

/// The walk of a cheap entry.
fn taken_walk(
    alloc: Global,
    graph: &Graph,
    number: u32,
    made: &Table<Label>,
    rank: &Ranked,
) -> Result<Taken, NoMemory>
    requires made { HasPartialWalks graph.now made.now.cells }
    requires cheap { IsCheap graph.now.ends.sink made.now.cells rank.now }
    ensures { IfOk result (IsTakenFrom graph.now number made.now.cells rank.now) }
{
    let place = Place {
        cell: rank.cell,
        index: rank.index,
    };
    let choices = walk_of(alloc, made, place)?;
    Ok(Taken {
        graph: number,
        count: 1,
        arcs: arcs_of(alloc, graph, choices.as_slice())?,
    })
}

/// The arcs of choices from the source.
fn arcs_of(alloc: Global, graph: &Graph, choices: &[u32]) -> Result<List<u32>, NoMemory>
    requires { AreChoices graph.now graph.now.ends.source choices.now }
    ensures { IfOk result (λ arcs. arcs ≡ arcs_chosen graph.now graph.now.ends.source choices.now) }
{
    let mut arcs = List::new(alloc);
    let mut vertex = graph.ends().source;
    for choice in choices {
        let arc = graph.out_arc(vertex, *choice);
        arcs.push(arc)?;
        vertex = graph.arc(arc).head;
    }
    Ok(arcs)
}
