ghost use Rattle.std.specs.Prelude.{◌≡◌, ◌↔◌, ◌≢◌, ℤ, All, IfOk, IsTrue};
ghost use Rattle.label_core.specs.Walks.{HasOrigins};
ghost use Rattle.route_labels.specs.Fit.{FieldFits};
ghost use Rattle.route_labels.specs.Meaning.{setting_of};
ghost use Rattle.pricing.specs.Halves.{IsPairIn};
ghost use Rattle.path_graph.specs.Walk.{IsFeasibleWalk};
ghost use Rattle.pricing.specs.JoinedWalks.{AreTakenOnce};

use crate::half_table::HalfPair;
use crate::join_ranks::{Joined, joins_of};
use crate::joined_arcs::arcs_of;
use path_graph::{Graph, List, NoMemory, is_walk};
use route_labels::Field;
use route_model::Taken;
use std::alloc::Global;

/// Walks of the field's graph that joins of its half pair show, of negative reduced cost, each taken once: the cheapest
/// first, at most `k`, with each packing set in at most `most` of them.
///
/// For each label of a partial walk the cheapest join is looked at. A half pair has no label at the sink, so its walks come
/// from joins alone. That no walk is cheaper is not promised.
pub fn joined_walks(
    alloc: Global,
    field: &Field,
    pair: &HalfPair,
    k: u32,
    most: u32,
) -> Result<List<Taken>, NoMemory>
    requires field { FieldFits field.now }
    requires pair { (threshold : ℤ) × IsPairIn (setting_of field.now) threshold pair.now }
    ensures { IfOk result (AreTakenOnce (setting_of field.now).graph field.now.graph k) }
{
    let mut joins = joins_of(alloc, field, pair)?;
    joins.sort()?;
    chosen(alloc, field, pair, joins.as_slice(), k, most)
}

/// The walks of joins in their order, but for those that are there, and those that would visit a packing set too often.
fn chosen(
    alloc: Global,
    field: &Field,
    pair: &HalfPair,
    joins: &[Joined],
    k: u32,
    most: u32,
) -> Result<List<Taken>, NoMemory>
    requires field { FieldFits field.now }
    requires fore { HasOrigins pair.now.fore.cells }
    requires back { HasOrigins pair.now.back.cells }
    ensures { IfOk result (AreTakenOnce (setting_of field.now).graph field.now.graph k) }
{
    let graph = field.path_graph();
    let mut walks = Vec::new(alloc);
    for join in joins {
        if walks.len() >= k as usize {
            break;
        }
        let arcs = arcs_of(alloc, graph, pair, join)?;
        if is_wanted(graph, walks.as_slice(), arcs.as_slice(), most) {
            walks.push(Taken {
                graph: field.graph,
                count: 1,
                arcs,
            })?;
        }
    }
    Ok(List::from_vec(walks))
}

/// Whether arcs are a feasible walk that is not there yet, and that visits no packing set which `most` walks visit.
fn is_wanted(graph: &Graph, walks: &[Taken], arcs: &[u32], most: u32) -> bool
    ensures walk { IsTrue result → IsFeasibleWalk graph.now arcs.now }
    ensures other { IsTrue result → All (λ t. t.arcs ≢ arcs.now) walks.now }
{
    is_walk(graph, arcs) && is_new(walks, arcs) && are_few(graph, walks, arcs, most)
}

/// Whether no walk has these arcs.
fn is_new(walks: &[Taken], arcs: &[u32]) -> bool
    ensures { IsTrue result ↔ All (λ t. t.arcs ≢ arcs.now) walks.now }
{
    walks.iter().all(|t| t.arcs.as_slice() != arcs)
}

/// Whether fewer than `most` walks visit each packing set that the arcs visit.
fn are_few(graph: &Graph, walks: &[Taken], arcs: &[u32], most: u32) -> bool {
    for arc in arcs {
        if let Some(set) = set_of(graph, *arc) {
            if visitors(graph, walks, set) >= most {
                return false;
            }
        }
    }
    true
}

/// The packing set that an arc enters.
fn set_of(graph: &Graph, arc: u32) -> Option<u16> {
    if arc >= graph.arc_count() {
        return None;
    }
    graph.vertex(graph.arc(arc).head).set
}

/// How many walks visit a packing set.
fn visitors(graph: &Graph, walks: &[Taken], set: u16) -> u32 {
    let mut count = 0u32;
    for walk in walks {
        if visits(graph, walk.arcs.as_slice(), set) {
            count = count.saturating_add(1);
        }
    }
    count
}

/// Whether arcs enter a packing set.
fn visits(graph: &Graph, arcs: &[u32], set: u16) -> bool {
    arcs.iter().any(|arc| set_of(graph, *arc) == Some(set))
}
