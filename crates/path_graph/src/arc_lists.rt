ghost use Rattle.std.specs.Prelude.{◌≡◌, ◌<◌, ◌-◌, ◌^◌, ◌++◌, ◌∷◌, [], List, ℕ, All, length, map, IfOk, OnOk, slice_set, slice_index_or};
ghost use Rattle.std.specs.List.{range_with_len};
ghost use Rattle.path_graph.specs.Parts.{arcs_from, arcs_into};

use crate::list::{List, NoMemory};
use crate::parts::GraphArc;
use std::alloc::Global;

/// So many empty lists.
fn empty_lists(alloc: Global, count: usize) -> Result<Vec<List<u32>>, NoMemory>
    ensures { IfOk result (λ lists. lists.items ≡ map (λ v. []) (range_with_len 0 count)) }
{
    let mut lists = Vec::new(alloc);
    for _ in 0..count {
        lists.push(List::new(alloc))?;
    }
    Ok(lists)
}

/// The arcs out of each vertex, by number, ascending.
pub(crate) fn lists_from(
    alloc: Global,
    count: usize,
    arcs: &[GraphArc],
) -> Result<List<List<u32>>, NoMemory>
    requires few { length arcs.now < 2 ^ 32 - 1 }
    requires ends { All (λ arc. arc.tail < count) arcs.now }
    ensures { IfOk result (λ lists. lists ≡ map (arcs_from arcs.now) (range_with_len 0 count)) }
{
    let mut lists = empty_lists(alloc, count)?;
    for (a, arc) in arcs.iter().enumerate() {
        lists[arc.tail as usize].push(a as u32)?;
    }
    Ok(List::from_vec(lists))
}

/// The arcs into each vertex, by number, ascending.
pub(crate) fn lists_into(
    alloc: Global,
    count: usize,
    arcs: &[GraphArc],
) -> Result<List<List<u32>>, NoMemory>
    requires few { length arcs.now < 2 ^ 32 - 1 }
    requires ends { All (λ arc. arc.head < count) arcs.now }
    ensures { IfOk result (λ lists. lists ≡ map (arcs_into arcs.now) (range_with_len 0 count)) }
{
    let mut lists = empty_lists(alloc, count)?;
    for (a, arc) in arcs.iter().enumerate() {
        lists[arc.head as usize].push(a as u32)?;
    }
    Ok(List::from_vec(lists))
}
