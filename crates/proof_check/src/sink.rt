ghost use Rattle.std.specs.Prelude.{◌≡◌, ◌↔◌, pos, All, IsTrue};
ghost use Rattle.path_graph.specs.Bounds.{IsAtLeast};
ghost use Rattle.label_rules.specs.Leasts.{Half, IsLeast};
ghost use Rattle.route_labels.specs.Fit.{FieldFits};
ghost use Rattle.route_labels.specs.Meaning.{setting_of};
ghost use Rattle.concatenate.specs.Fit.{MayJoin};
ghost use Rattle.cert_rules.specs.Meaning.{form_of};
ghost use Rattle.proof_check.specs.Demands.{IfBack};

use concatenate::least_join;
use route_labels::{Field, Form, Label, ProofTable};

/// Whether no label at the sink, or in a half pair no join, costs less than the least of a table, and there is none of these
/// where there is no least.
pub(crate) fn is_least(field: &Field, table: &ProofTable) -> bool
    requires field { FieldFits field.now }
    requires fore { All (MayJoin (setting_of field.now)) table.now.fore }
    requires back { IfBack (form_of table.now.form) (All (MayJoin (setting_of field.now)) table.now.back) }
    ensures { IsTrue result ↔ IsLeast (setting_of field.now) (form_of table.now.form) table.now.fore table.now.back table.now.least }
{
    let fore = table.fore.as_slice();
    match table.form {
        Form::Half(_) => is_least_join(field, fore, table.back.as_slice(), table.least),
        Form::Full => are_above_at(fore, field.path_graph().ends().sink, table.least),
        Form::Both => are_above_at(fore, field.path_graph().ends().sink, table.least),
    }
}

/// Whether a cost is at least the least, and there is one.
fn is_at_least(least: Option<i128>, cost: i128) -> bool
    ensures { IsTrue result ↔ IsAtLeast least cost }
{
    match least {
        None => false,
        Some(least) => least <= cost,
    }
}

/// Whether a label costs at least the least, if it stands at a vertex.
fn is_above_at(label: &Label, vertex: u32, least: Option<i128>) -> bool
    ensures { IsTrue result ↔ (label.now.vertex ≡ vertex → IsAtLeast least label.now.cost) }
{
    label.vertex != vertex || is_at_least(least, label.cost)
}

/// Whether each label at a vertex costs at least the least.
fn are_above_at(labels: &[Label], vertex: u32, least: Option<i128>) -> bool
    ensures { IsTrue result ↔ All (λ l. l.vertex ≡ vertex → IsAtLeast least l.cost) labels.now }
{
    labels.iter().all(|label| is_above_at(label, vertex, least))
}

/// Whether each join costs at least the least.
fn is_least_join(field: &Field, fore: &[Label], back: &[Label], least: Option<i128>) -> bool
    requires field { FieldFits field.now }
    requires fore { All (MayJoin (setting_of field.now)) fore.now }
    requires back { All (MayJoin (setting_of field.now)) back.now }
    ensures { IsTrue result ↔ IsLeast (setting_of field.now) (Half (pos 0)) fore.now back.now least }
{
    match least_join(field, fore, back) {
        None => true,
        Some(cost) => is_at_least(least, cost),
    }
}
