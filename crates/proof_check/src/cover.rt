ghost use Rattle.std.specs.Prelude.{◌≡◌, ◌↔◌, ◌<◌, true, All, IfOk, IsTrue, length};
ghost use Rattle.label_rules.specs.Spaces.{is_label, onward};
ghost use Rattle.label_rules.specs.Tables.{Covers};
ghost use Rattle.route_labels.specs.Fit.{FieldFits};
ghost use Rattle.route_labels.specs.Meaning.{setting_of};
ghost use Rattle.proof_check.specs.Demands.{IsExtended};
ghost use Rattle.proof_check.specs.Index.{IsIndex, places_at};
ghost use Rattle.proof_check.specs.Keeps.{ListKeeps};
ghost use Rattle.proof_check.specs.Ways.{direction_of, AreCovered, AreLabels, CostsKeep, IsCoveredAt};

use crate::dominance::dominates;
use crate::index::label_index;
use crate::way::{Way, degree, extension_at, is_label_of};
use path_graph::{List, NoMemory};
use route_labels::{Field, Label};
use std::alloc::Global;

/// Whether the labels of a list lie in their windows, with states below the denominators, and each extension that needs a
/// dominator has one in the list.
///
/// The labels are gathered by their vertex once, and a dominator is looked for among those of one vertex.
pub(crate) fn is_extended(alloc: Global, way: &Way, labels: &[Label]) -> Result<bool, NoMemory>
    requires field { FieldFits way.now.field }
    requires keeps { ListKeeps (length way.now.field.cuts.now) labels.now }
    ensures { IfOk result (λ holds. IsTrue holds ↔ IsExtended (direction_of way.now.backward) (setting_of way.now.field) way.now.threshold labels.now) }
{
    let graph = way.field.path_graph();
    if !are_labels(way, labels) {
        return Ok(false);
    }
    let count = graph.vertex_count() as usize;
    let index = label_index(alloc, count, labels)?;
    Ok(are_covered(way, labels, index.as_slice()))
}

/// Whether all are labels of the direction.
fn are_labels(way: &Way, labels: &[Label]) -> bool
    requires { FieldFits way.now.field }
    ensures { IsTrue result ↔ AreLabels (direction_of way.now.backward) (setting_of way.now.field) labels.now }
{
    labels.iter().all(|label| is_label_of(way, label))
}

/// Whether each extension of each label has a dominator.
fn are_covered(way: &Way, labels: &[Label], index: &[List<usize>]) -> bool
    requires field { FieldFits way.now.field }
    requires costs { CostsKeep labels.now }
    requires labels { AreLabels (direction_of way.now.backward) (setting_of way.now.field) labels.now }
    requires index { IsIndex labels.now (length (setting_of way.now.field).graph.vertices) index.now }
    ensures { IsTrue result ↔ All (AreCovered (direction_of way.now.backward) (setting_of way.now.field) way.now.threshold labels.now) labels.now }
{
    for label in labels {
        if !is_covered(way, labels, index, label) {
            return false;
        }
    }
    true
}

/// Whether each extension of a label has a dominator.
fn is_covered(way: &Way, labels: &[Label], index: &[List<usize>], label: &Label) -> bool
    requires field { FieldFits way.now.field }
    requires costs { CostsKeep labels.now }
    requires index { IsIndex labels.now (length (setting_of way.now.field).graph.vertices) index.now }
    requires label { is_label (direction_of way.now.backward) (setting_of way.now.field) label.now ≡ true }
    ensures { IsTrue result ↔ AreCovered (direction_of way.now.backward) (setting_of way.now.field) way.now.threshold labels.now label.now }
{
    for k in 0..degree(way, label) {
        if !is_covered_at(way, labels, index, label, k) {
            return false;
        }
    }
    true
}

/// Whether an extension of a label has a dominator, if it is defined and needs one.
fn is_covered_at(way: &Way, labels: &[Label], index: &[List<usize>], label: &Label, k: u32) -> bool
    requires field { FieldFits way.now.field }
    requires costs { CostsKeep labels.now }
    requires index { IsIndex labels.now (length (setting_of way.now.field).graph.vertices) index.now }
    requires label { is_label (direction_of way.now.backward) (setting_of way.now.field) label.now ≡ true }
    requires place { k < length (onward (direction_of way.now.backward) (setting_of way.now.field) label.now.vertex) }
    ensures { IsTrue result ↔ IsCoveredAt (direction_of way.now.backward) (setting_of way.now.field) way.now.threshold labels.now label.now k }
{
    let _graph = way.field.path_graph();
    match extension_at(way, label, k) {
        None => true,
        Some(next) => has_dominator(&way.field, way.backward, labels, index, &next),
    }
}

/// Whether a label of the list dominates this one.
fn has_dominator(
    field: &Field,
    backward: bool,
    labels: &[Label],
    index: &[List<usize>],
    label: &Label,
) -> bool
    requires field { FieldFits field.now }
    requires costs { CostsKeep labels.now }
    requires vertex { label.now.vertex < length (setting_of field.now).graph.vertices }
    requires index { IsIndex labels.now (length (setting_of field.now).graph.vertices) index.now }
    ensures { IsTrue result ↔ Covers (direction_of backward) (setting_of field.now) labels.now label.now }
{
    let places = index[label.vertex as usize].as_slice();
    has_dominator_at(field, backward, labels, places, label)
}

/// Whether a label at one of these places does.
fn has_dominator_at(
    field: &Field,
    backward: bool,
    labels: &[Label],
    places: &[usize],
    label: &Label,
) -> bool
    requires field { FieldFits field.now }
    requires costs { CostsKeep labels.now }
    requires places { places.now ≡ places_at labels.now label.now.vertex }
    requires within { All (λ place. place < length labels.now) places.now }
    ensures { IsTrue result ↔ Covers (direction_of backward) (setting_of field.now) labels.now label.now }
{
    let _graph = field.path_graph();
    for place in places {
        if dominates(field, backward, &labels[*place], label) {
            return true;
        }
    }
    false
}
