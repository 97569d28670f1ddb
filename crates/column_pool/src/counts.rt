//! How often a walk uses each variable and visits each packing set.

ghost use Rattle.std.specs.Prelude.{◌≡◌, ℕ, ◌+◌, ◌<◌, ◌≤◌, All, IfOk, IfSome, length, slice_index, if◌then◌else◌, ◌==◌};
ghost use Rattle.std.specs.List.{list_any};
ghost use Rattle.path_graph.specs.First.{EachBelow};
ghost use Rattle.path_graph.specs.Visits.{is_visit, visit_count, visits_along};
ghost use Rattle.route_model.specs.Fit.{MapFits};
ghost use Rattle.route_model.specs.Known.{AreMapped};
ghost use Rattle.route_model.specs.Parts.{maps_in};
ghost use Rattle.route_model.specs.Quantities.{uses_in};
ghost use Rattle.column_pool.specs.declared.limits.TheConstants.{MAX_WALK_ARCS};

use path_graph::{Graph, List, NoMemory};
use std::alloc::Global;

/// How often a walk uses each variable.
pub(crate) fn uses_of(
    alloc: Global,
    maps: &List<List<List<u32>>>,
    count: usize,
    g: u32,
    arcs: &[u32],
) -> Result<Vec<u32>, NoMemory>
    requires mapped { AreMapped maps.now g arcs.now }
    requires fit { All (MapFits count) (maps_in maps.now g) }
    requires few { length arcs.now ≤ MAX_WALK_ARCS }
    ensures len { IfOk result (λ uses. length uses.items ≡ count) }
    ensures uses { IfOk result (λ uses. EachBelow count (λ j. slice_index uses.items j ≡ uses_in maps.now j g arcs.now)) }
{
    let mut uses = vec![in alloc; 0u32; count]?;
    let lists = maps.at(g as usize);
    for arc in arcs {
        count_each(uses.as_mut_slice(), lists.at(*arc as usize).as_slice());
    }
    Ok(uses)
}

/// Counts one use more of each of the variables.
fn count_each(counts: &mut [u32], vars: &[u32])
    requires fit { MapFits (length counts.old) vars.now }
    requires few { EachBelow (length counts.old) (λ j. slice_index counts.old j ≤ MAX_WALK_ARCS) }
    ensures { EachBelow (length counts.old) (λ j. slice_index counts.new j
        ≡ slice_index counts.old j + (if list_any (λ i. i == j) vars.now then 1 else 0)) }
{
    for var in vars {
        counts[*var as usize] += 1;
    }
}

/// The visits of a walk, in order.
pub(crate) fn visits_of(
    alloc: Global,
    graph: &Graph,
    arcs: &[u32],
) -> Result<Vec<Option<u16>>, NoMemory>
    requires { All (λ a. a < length graph.now.arcs) arcs.now }
    ensures { IfOk result (λ visits. visits.items ≡ visits_along graph.now arcs.now) }
{
    let mut visits = Vec::new(alloc);
    for arc in arcs {
        visits.push(graph.vertex(graph.arc(*arc).head).set)?;
    }
    Ok(visits)
}

/// How often visits are of each packing set.
pub(crate) fn set_counts(
    alloc: Global,
    count: usize,
    visits: &[Option<u16>],
) -> Result<Vec<u32>, NoMemory>
    requires declared { All (λ visit. IfSome visit (λ s. s < count)) visits.now }
    requires few { length visits.now ≤ MAX_WALK_ARCS }
    ensures len { IfOk result (λ counts. length counts.items ≡ count) }
    ensures counts { IfOk result (λ counts. EachBelow count (λ s. slice_index counts.items s ≡ visit_count s visits.now)) }
{
    let mut counts = vec![in alloc; 0u32; count]?;
    for visit in visits {
        count_visit(counts.as_mut_slice(), *visit);
    }
    Ok(counts)
}

/// Counts one visit more, unless it is of no packing set.
fn count_visit(counts: &mut [u32], visit: Option<u16>)
    requires visit { IfSome visit (λ s. s < length counts.old) }
    requires few { EachBelow (length counts.old) (λ s. slice_index counts.old s ≤ MAX_WALK_ARCS) }
    ensures { EachBelow (length counts.old) (λ s. slice_index counts.new s
        ≡ slice_index counts.old s + (if is_visit s visit then 1 else 0)) }
{
    let Some(set) = visit else {
        return;
    };
    counts[set as usize] += 1;
}
