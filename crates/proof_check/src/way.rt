ghost use Rattle.std.specs.Prelude.{◌≡◌, ◌<◌, true, length, slice_index};
ghost use Rattle.label_rules.specs.Labels.{root};
ghost use Rattle.label_rules.specs.Spaces.{extension, is_label, onward};
ghost use Rattle.route_labels.specs.Fit.{FieldFits};
ghost use Rattle.route_labels.specs.Meaning.{setting_of};
ghost use Rattle.proof_check.specs.Ways.{direction_of};

use label_space::Space;
use route_labels::{Backward, Field, Forward, Label};

/// The labels of a field in one direction, up to a threshold or above one, or without.
#[derive(Clone, Copy)]
pub(crate) struct Way<'a> {
    pub(crate) field: Field<'a>,
    pub(crate) backward: bool,
    pub(crate) threshold: Option<i32>,
}

/// The label without arcs.
pub(crate) fn root_of(way: &Way) -> Label
    requires { FieldFits way.now.field }
    ensures { result ≡ root (direction_of way.now.backward) (setting_of way.now.field) }
{
    if way.backward {
        Backward::new(way.field, way.threshold).root()
    } else {
        Forward::new(way.field, way.threshold).root()
    }
}

/// Whether a label lies in its windows, with states below the denominators and a cost in range.
pub(crate) fn is_label_of(way: &Way, label: &Label) -> bool
    requires { FieldFits way.now.field }
    ensures { result ≡ is_label (direction_of way.now.backward) (setting_of way.now.field) label.now }
{
    if way.backward {
        Backward::new(way.field, way.threshold).fits(label)
    } else {
        Forward::new(way.field, way.threshold).fits(label)
    }
}

/// How many arcs lead on from a label.
pub(crate) fn degree(way: &Way, label: &Label) -> u32
    requires field { FieldFits way.now.field }
    requires label { is_label (direction_of way.now.backward) (setting_of way.now.field) label.now ≡ true }
    ensures { result ≡ length (onward (direction_of way.now.backward) (setting_of way.now.field) label.now.vertex) }
{
    if way.backward {
        Backward::new(way.field, way.threshold).degree(label)
    } else {
        Forward::new(way.field, way.threshold).degree(label)
    }
}

/// The extension of a label over an arc on from it, by its place among them: none where it is undefined or needs no
/// dominator.
pub(crate) fn extension_at(way: &Way, label: &Label, k: u32) -> Option<Label>
    requires field { FieldFits way.now.field }
    requires label { is_label (direction_of way.now.backward) (setting_of way.now.field) label.now ≡ true }
    requires place { k < length (onward (direction_of way.now.backward) (setting_of way.now.field) label.now.vertex) }
    ensures { result ≡ extension (direction_of way.now.backward) (setting_of way.now.field) way.now.threshold label.now
        (slice_index (onward (direction_of way.now.backward) (setting_of way.now.field) label.now.vertex) k) }
{
    if way.backward {
        Backward::new(way.field, way.threshold).extend(label, k)
    } else {
        Forward::new(way.field, way.threshold).extend(label, k)
    }
}
