ghost use Rattle.std.specs.Prelude.{IsTrue};
ghost use Rattle.label_core.specs.declared.table.Entry.{Entry};
ghost use Rattle.label_core.specs.Tables.{StandsAt, place};
ghost use Rattle.label_core.specs.Walks.{HasOrigins};
ghost use Rattle.label_rules.specs.declared.label.Label.{Label};

use crate::half_table::HalfPair;
use crate::join_ranks::Joined;
use label_core::{Place, Table, walk_of};
use path_graph::{Graph, List, NoMemory};
use route_labels::Label;
use std::alloc::Global;

/// The arcs of a join: those of its partial walk, its own, and those of its rest.
pub(crate) fn arcs_of(
    alloc: Global,
    graph: &Graph,
    pair: &HalfPair,
    join: &Joined,
) -> Result<List<u32>, NoMemory>
    requires fore { HasOrigins pair.now.fore.cells }
    requires back { HasOrigins pair.now.back.cells }
{
    let fore = choices_at(alloc, &pair.fore, join.fore)?;
    let back = choices_at(alloc, &pair.back, join.back)?;
    let mut arcs = Vec::new(alloc);
    push_forward(graph, fore.as_slice(), &mut arcs)?;
    arcs.push(join.arc)?;
    let mut rest = Vec::new(alloc);
    push_backward(graph, back.as_slice(), &mut rest)?;
    rest.reverse();
    arcs.extend_from_slice(rest.as_slice())?;
    Ok(List::from_vec(arcs))
}

/// The choices of the entry at a place.
fn choices_at(alloc: Global, made: &Table<Label>, at: (u32, u32)) -> Result<List<u32>, NoMemory>
    requires { HasOrigins made.now.cells }
{
    let (cell, index) = at;
    if !is_there(made, cell as usize, index as usize) {
        return Ok(List::new(alloc));
    }
    walk_of(alloc, made, Place { cell, index })
}

/// Whether a table has an entry at a place.
fn is_there(made: &Table<Label>, cell: usize, index: usize) -> bool
    ensures { IsTrue result → (e : Entry Label) × StandsAt made.now.cells (place cell index) e }
{
    match made.cells.as_slice().get(cell) {
        Some(entries) => entries.as_slice().get(index).is_some(),
        None => false,
    }
}

/// Appends the arcs of choices from the source on.
fn push_forward(graph: &Graph, choices: &[u32], arcs: &mut Vec<u32>) -> Result<(), NoMemory> {
    let mut vertex = graph.ends().source;
    for choice in choices {
        if *choice >= graph.out_count(vertex) {
            break;
        }
        let arc = graph.out_arc(vertex, *choice);
        arcs.push(arc)?;
        vertex = graph.arc(arc).head;
    }
    Ok(())
}

/// Appends the arcs of choices back from the sink.
fn push_backward(graph: &Graph, choices: &[u32], arcs: &mut Vec<u32>) -> Result<(), NoMemory> {
    let mut vertex = graph.ends().sink;
    for choice in choices {
        if *choice >= graph.in_count(vertex) {
            break;
        }
        let arc = graph.in_arc(vertex, *choice);
        arcs.push(arc)?;
        vertex = graph.arc(arc).tail;
    }
    Ok(())
}
