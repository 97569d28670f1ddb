ghost use Rattle.std.specs.Prelude.{◌≡◌, ◌↔◌, ◌<◌, All, IfOk, IsTrue, OnOk, length, map};
ghost use Rattle.route_labels.specs.Fit.{FieldFits};
ghost use Rattle.route_labels.specs.Meaning.{setting_of};
ghost use Rattle.concatenate.specs.Fit.{MayJoin};
ghost use Rattle.proof_check.specs.Index.{IsIndex};
ghost use Rattle.arc_fixing.specs.Chosen.{AppendsChosen, IsChosen};
ghost use Rattle.arc_fixing.specs.Fixable.{AreWholeTables, IsFixable, PartsFit, arcs_below, arcs_in};
ghost use Rattle.arc_fixing.specs.Pairs.{IsFixableIn, IsOpenAbove};

use crate::joins::{Listed, are_above};
use ng_sets::Near;
use path_graph::{List, NoMemory};
use proof_check::label_index;
use rank1_cuts::Cut;
use route_labels::{Field, ProofTable};
use route_model::{Model, Priced, Spot};
use safe_bound::walk_limit;
use std::alloc::Global;

/// The arcs that may be dropped at a place against z, by graph and then by number: those that are not shut and over which all
/// joins of the tables cost more than the limit of a walk. No solution of the place uses one of them that costs less than z.
///
/// Pairs of labels are looked at only at the ends of an arc, up to the first join within the limit.
/// Fixing by reduced costs is that of Irnich, Desaulniers, Desrosiers and Hadjar (2010).
#[allow(clippy::too_many_arguments)]
pub fn fixable(
    alloc: Global,
    model: &Model,
    spot: &Spot,
    priced: &Priced,
    near: &Near,
    cuts: &[Cut],
    y: &[u64],
    tables: &[ProofTable],
    z: i64,
) -> Result<List<(u32, u32)>, NoMemory>
    requires parts { PartsFit model.now (record { spot = spot.now; priced = priced.now; near = near.now; cuts = cuts.now; y = y.now }) }
    requires tables { AreWholeTables model.now (record { spot = spot.now; priced = priced.now; near = near.now; cuts = cuts.now; y = y.now }) tables.now }
    ensures { IfOk result (IsChosen
        (IsFixable model.now (record { spot = spot.now; priced = priced.now; near = near.now; cuts = cuts.now; y = y.now }) tables.now z)
        (arcs_below model.now (length model.now.graphs))) }
{
    let leasts = leasts_of(alloc, tables)?;
    let mut arcs = Vec::new(alloc);
    for (g, table) in tables.iter().enumerate() {
        let field = Field {
            model,
            graph: g as u32,
            spot,
            priced,
            near,
            cuts,
            y,
        };
        let limit = walk_limit(priced, &spot.boxes, leasts.as_slice(), g as u32, z);
        push_fixable(alloc, &field, table, limit, &mut arcs)?;
    }
    Ok(List::from_vec(arcs))
}

/// The leasts of tables, in their order.
fn leasts_of(alloc: Global, tables: &[ProofTable]) -> Result<List<Option<i128>>, NoMemory>
    ensures { IfOk result (λ leasts. leasts ≡ map (λ t. t.least) tables.now) }
{
    let mut leasts = Vec::new(alloc);
    for table in tables {
        leasts.push(table.least)?;
    }
    Ok(List::from_vec(leasts))
}

/// Appends the arcs of a graph that may be dropped.
fn push_fixable(
    alloc: Global,
    field: &Field,
    table: &ProofTable,
    limit: Option<i128>,
    arcs: &mut Vec<(u32, u32)>,
) -> Result<(), NoMemory>
    requires field { FieldFits field.now }
    requires fore { All (MayJoin (setting_of field.now)) table.now.fore }
    requires back { All (MayJoin (setting_of field.now)) table.now.back }
    ensures { OnOk result (AppendsChosen (IsFixableIn (setting_of field.now) table.now.fore table.now.back limit)
        (arcs_in field.now.graph (length (setting_of field.now).graph.arcs)) arcs.old.items arcs.new.items) }
{
    let graph = field.path_graph();
    let count = graph.vertex_count() as usize;
    let fore = label_index(alloc, count, table.fore.as_slice())?;
    let back = label_index(alloc, count, table.back.as_slice())?;
    let ahead = Listed {
        labels: table.fore.as_slice(),
        index: fore.as_slice(),
    };
    let behind = Listed {
        labels: table.back.as_slice(),
        index: back.as_slice(),
    };
    for arc in 0..graph.arc_count() {
        if is_fixable(field, &ahead, arc, &behind, limit) {
            arcs.push((field.graph, arc))?;
        }
    }
    Ok(())
}

/// Whether an arc is not shut, and each join over it costs more than the limit, if there is one.
fn is_fixable(field: &Field, fore: &Listed, arc: u32, back: &Listed, limit: Option<i128>) -> bool
    requires field { FieldFits field.now }
    requires fore { All (MayJoin (setting_of field.now)) fore.now.labels.now }
    requires back { All (MayJoin (setting_of field.now)) back.now.labels.now }
    requires fore_index { IsIndex fore.now.labels.now (length (setting_of field.now).graph.vertices) fore.now.index.now }
    requires back_index { IsIndex back.now.labels.now (length (setting_of field.now).graph.vertices) back.now.index.now }
    requires arc { arc < length (setting_of field.now).graph.arcs }
    ensures { IsTrue result ↔ IsOpenAbove (setting_of field.now) fore.now.labels.now back.now.labels.now limit arc }
{
    let _graph = field.path_graph();
    if field.is_shut(arc) {
        return false;
    }
    match limit {
        None => true,
        Some(limit) => are_above(field, fore, arc, back, limit),
    }
}
