ghost use Rattle.std.specs.Prelude.{◌≡◌, ◌↔◌, ◌<◌, ◌≤◌, IsTrue, length};
ghost use Rattle.label_rules.specs.Labels.{root};
ghost use Rattle.label_rules.specs.Leasts.{Both};
ghost use Rattle.label_rules.specs.Tables.{Covers};
ghost use Rattle.route_labels.specs.Fit.{FieldFits};
ghost use Rattle.route_labels.specs.Meaning.{setting_of};
ghost use Rattle.cert_rules.specs.Meaning.{form_of, table_of};
ghost use Rattle.proof_check.specs.Checked.{IsReady};
ghost use Rattle.proof_check.specs.Demands.{HasTable, IsFrom, IsMet, IsRooted, Roots, threshold_of};
ghost use Rattle.proof_check.specs.Ways.{direction_of, CostsKeep};

use crate::dominance::dominates;
use crate::proved::Proved;
use crate::way::{Way, root_of};
use path_graph::{Graph, root_values};
use route_labels::{Field, Form, Label, ProofTable};

/// Whether a graph has a table, with both lists where these are asked for, with a threshold that is not below the source, and
/// with a label in each list that dominates the root.
pub(crate) fn has_roots(at: &Proved, g: u32, whole: bool) -> bool
    requires ready { IsReady at.now }
    requires graph { g < length at.now.model.now.graphs }
    ensures { IsTrue result ↔ IsMet at.now.model.now at.now.spot.now at.now.proof.now whole (Roots g) }
{
    if !has_table(at.proof.tables.as_slice(), g) {
        return false;
    }
    is_rooted(&at.field(g), at.table(g), whole)
}

/// Whether the table of a graph stands in its place.
fn has_table(tables: &[ProofTable], g: u32) -> bool
    ensures { IsTrue result ↔ HasTable tables.now g }
{
    (g as usize) < tables.len() && tables[g as usize].graph == g
}

/// Whether a table has the lists asked for, a threshold that is not below the source, and the roots of its lists.
fn is_rooted(field: &Field, table: &ProofTable, whole: bool) -> bool
    requires field { FieldFits field.now }
    requires fore { CostsKeep table.now.fore }
    requires back { CostsKeep table.now.back }
    ensures { IsTrue result ↔ IsRooted whole (setting_of field.now) (table_of table.now) }
{
    if whole && table.form != Form::Both {
        return false;
    }
    if !is_from(threshold(table.form), field.path_graph()) {
        return false;
    }
    if !has_root(field, false, table.fore.as_slice()) {
        return false;
    }
    table.form == Form::Full || has_root(field, true, table.back.as_slice())
}

/// The threshold of a table, if there is one.
pub(crate) fn threshold(form: Form) -> Option<i32>
    ensures { result ≡ threshold_of (form_of form) }
{
    match form {
        Form::Half(top) => Some(top),
        Form::Full => None,
        Form::Both => None,
    }
}

/// Whether a threshold is at least the first main value at the source.
fn is_from(threshold: Option<i32>, graph: &Graph) -> bool
    ensures { IsTrue result ↔ IsFrom threshold graph.now }
{
    match threshold {
        None => true,
        Some(top) => root_values(graph).at[0] <= top,
    }
}

/// Whether a label of a list dominates the root.
fn has_root(field: &Field, backward: bool, labels: &[Label]) -> bool
    requires field { FieldFits field.now }
    requires costs { CostsKeep labels.now }
    ensures { IsTrue result ↔ Covers (direction_of backward) (setting_of field.now) labels.now (root (direction_of backward) (setting_of field.now)) }
{
    let _graph = field.path_graph();
    let root = root_of(&Way {
        field: *field,
        backward,
        threshold: None,
    });
    for label in labels {
        if dominates(field, backward, label, &root) {
            return true;
        }
    }
    false
}
