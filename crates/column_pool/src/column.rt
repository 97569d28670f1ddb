//! What is kept of a walk, and its columns.

ghost use Rattle.std.specs.Prelude.{◌≡◌, ◌+◌, ◌<◌, ◌≤◌, ◌^◌, All, IfOk, IfSome, length, slice_index};
ghost use Rattle.path_graph.specs.First.{EachBelow};
ghost use Rattle.path_graph.specs.Walk.{IsFeasibleWalk};
ghost use Rattle.path_graph.specs.Within.{IsWithin};
ghost use Rattle.rank1_cuts.specs.Fit.{CutFits};
ghost use Rattle.route_model.specs.Parts.{ModelParts, graph_in};
ghost use Rattle.column_pool.specs.declared.limits.TheConstants.{MAX_WALK_ARCS};
ghost use Rattle.column_pool.specs.Amounts.{entries_with, sum_with};
ghost use Rattle.column_pool.specs.Columns.{column_of};
ghost use Rattle.column_pool.specs.Walks.{IsKept};

use crate::amounts::cost_sum;
use crate::counts::{set_counts, uses_of, visits_of};
use crate::entries::{push_counts, push_cuts, push_entry, push_rows};
use crate::kept::KeptWalk;
use fixed_master::{Column, Entry};
use path_graph::{List, NoMemory};
use rank1_cuts::Cut;
use route_model::Model;
use std::alloc::Global;

/// What is kept of a walk.
pub(crate) fn kept_walk(
    alloc: Global,
    model: &Model,
    g: u32,
    arcs: &[u32],
) -> Result<KeptWalk, NoMemory>
    requires graph { g < length model.now.graphs }
    requires walk { IsFeasibleWalk (graph_in model.now.graphs g) arcs.now }
    requires few { length arcs.now ≤ MAX_WALK_ARCS }
    ensures kept { IfOk result (IsKept model.now) }
    ensures graph { IfOk result (λ kept. kept.graph ≡ g) }
    ensures arcs { IfOk result (λ kept. kept.arcs ≡ arcs.now) }
{
    let visits = visits_of(alloc, model.graphs.at(g as usize), arcs)?;
    let uses = uses_of(alloc, &model.maps, model.vars.len(), g, arcs)?;
    let cost = cost_sum(model.vars.as_slice(), uses.as_slice());
    let entries = first_entries(alloc, model, uses.as_slice(), visits.as_slice())?;
    Ok(KeptWalk {
        graph: g,
        arcs: List::from_vec(Vec::from_slice(alloc, arcs)?),
        visits: List::from_vec(visits),
        cost,
        entries: List::from_vec(entries),
    })
}

/// The entries of variables, rows and packing sets, for so many uses of each variable and these visits.
fn first_entries(
    alloc: Global,
    model: &Model,
    uses: &[u32],
    visits: &[Option<u16>],
) -> Result<Vec<Entry>, NoMemory>
    requires uses { length uses.now ≡ length model.now.vars }
    requires few { EachBelow (length uses.now) (λ j. slice_index uses.now j ≤ MAX_WALK_ARCS) }
    requires visits { All (λ visit. IfSome visit (λ s. s < model.now.sets)) visits.now }
    requires few_visits { length visits.now ≤ MAX_WALK_ARCS }
    requires near { All (λ row. IsWithin (2 ^ 62) (sum_with (slice_index uses.now) row.terms)) model.now.rows }
    ensures { IfOk result (λ entries. entries.items ≡ entries_with model.now uses.now visits.now) }
{
    let counts = set_counts(alloc, model.sets as usize, visits)?;
    let mut entries = Vec::new(alloc);
    push_counts(&mut entries, 0, uses)?;
    push_rows(&mut entries, model.vars.len(), model.rows.as_slice(), uses)?;
    push_counts(
        &mut entries,
        model.vars.len() + model.rows.len(),
        counts.as_slice(),
    )?;
    Ok(entries)
}

/// The column of a walk: after the entries that are kept come those of the cuts and of the path count.
pub(crate) fn walk_column(
    alloc: Global,
    walk: &KeptWalk,
    first_cut: usize,
    cuts: &[Cut],
) -> Result<Column, NoMemory>
    requires cuts { All CutFits cuts.now }
    requires visits { length walk.now.visits ≤ MAX_WALK_ARCS }
    requires places { first_cut + length cuts.now + walk.now.graph < 2 ^ 32 }
    ensures { IfOk result (λ column. (m : ModelParts) → IsKept m walk.now
        → first_cut ≡ length m.vars + length m.rows + m.sets → column ≡ column_of m cuts.now walk.now.graph walk.now.arcs) }
{
    let mut entries = Vec::from_slice(alloc, walk.entries.as_slice())?;
    push_cuts(&mut entries, first_cut, cuts, walk.visits.as_slice())?;
    push_entry(
        &mut entries,
        first_cut + cuts.len() + walk.graph as usize,
        1,
    )?;
    Ok(Column {
        cost: walk.cost,
        entries: List::from_vec(entries),
    })
}
