//! The parts of a listing, graph by graph.

ghost use Rattle.std.specs.Prelude.{◌≡◌, ◌≤◌, ◌<◌, IfOk, length, map};
ghost use Rattle.std.specs.Bool.{OnTrue, OnFalse};
ghost use Rattle.route_labels.specs.Fit.{FieldFits};
ghost use Rattle.cert_rules.specs.Meaning.{step_of};
ghost use Rattle.walk_list.specs.Growing.{IsFull, IsWhole};
ghost use Rattle.walk_list.specs.Tasks.{TaskFits, back_in, field_in, leasts_in, limit_in, setting_in};

use crate::grow::grow_tree;
use certificate::Step;
use label_rules::ProofTable;
use ng_sets::Near;
use path_graph::{List, NoMemory};
use rank1_cuts::Cut;
use route_labels::Field;
use route_model::{Model, Priced, Spot};
use safe_bound::walk_limit;
use std::alloc::Global;

/// What walks are listed from: a model, a place, what labels are made from there, the tables of the graphs, and the cost to
/// beat.
#[derive(Clone, Copy)]
pub(crate) struct Task<'a> {
    pub model: &'a Model,
    pub spot: &'a Spot,
    pub priced: &'a Priced,
    pub near: &'a Near,
    pub cuts: &'a [Cut],
    pub y: &'a [u64],
    pub tables: &'a [ProofTable],
    pub z: i64,
}

/// What the labels of a graph are made from.
pub(crate) fn field_of<'a>(task: &Task<'a>, graph: u32) -> Field<'a>
    requires task { TaskFits task.now }
    requires graph { graph < length task.now.model.now.graphs }
    ensures field { result ≡ field_in task.now graph }
    ensures fits { FieldFits result }
{
    Field {
        model: task.model,
        graph,
        spot: task.spot,
        priced: task.priced,
        near: task.near,
        cuts: task.cuts,
        y: task.y,
    }
}

/// The leasts of the tables.
pub(crate) fn leasts_of(alloc: Global, tables: &[ProofTable]) -> Result<Vec<Option<i128>>, NoMemory>
    ensures { IfOk result (λ leasts. leasts.items ≡ map (λ table. table.least) tables.now) }
{
    let leasts = tables.iter().map(|table| table.least).collect(alloc)?;
    Ok(leasts)
}

/// The tree of a graph, and whether it is whole; where it is not, it has as many lines as there is room for.
pub(crate) fn tree_of(
    alloc: Global,
    task: &Task,
    leasts: &[Option<i128>],
    graph: u32,
    room: u32,
) -> Result<(List<Step>, bool), NoMemory>
    requires task { TaskFits task.now }
    requires leasts { leasts.now ≡ leasts_in task.now }
    requires graph { graph < length task.now.model.now.graphs }
    ensures whole { IfOk result (λ made. OnTrue made.1 (IsWhole (setting_in task.now graph) (back_in task.now graph) (limit_in task.now graph)
        (map step_of made.0))) }
    ensures room { IfOk result (λ made. OnTrue made.1 (length made.0 ≤ room)) }
    ensures full { IfOk result (λ made. OnFalse made.1 (IsFull (setting_in task.now graph) (back_in task.now graph) (limit_in task.now graph) room
        (map step_of made.0))) }
{
    let field = field_of(task, graph);
    let limit = walk_limit(task.priced, &task.spot.boxes, leasts, graph, task.z);
    let back = task.tables[graph as usize].back.as_slice();
    grow_tree(alloc, &field, back, limit, room)
}
