ghost use Rattle.std.specs.Prelude.{◌≡◌, ◌<◌, true, length};
ghost use Rattle.path_graph.specs.Fit.{int_at};
ghost use Rattle.path_graph.specs.Walk.{arc_at};
ghost use Rattle.label_rules.specs.Labels.{Forward, Backward};
ghost use Rattle.label_rules.specs.Spaces.{extension, is_label};
ghost use Rattle.route_labels.specs.Arrival.{needed_above, needed_up_to};
ghost use Rattle.route_labels.specs.Fit.{PartsAgree};
ghost use Rattle.route_labels.specs.Meaning.{setting_of};

use crate::arrival::arrive;
use crate::field::{Field, graph_of};
use label_rules::Label;
use path_graph::{Values, after, before};

/// Whether a label with these values, at this vertex, needs a dominator up to a threshold.
fn is_up_to(top: Option<i32>, values: &Values, vertex: u32, sink: u32) -> bool
    ensures { result ≡ needed_up_to top (int_at values.now.at 0) vertex sink }
{
    match top {
        None => true,
        Some(t) => values.at[0] <= t && vertex != sink,
    }
}

/// Whether a label with these values, at this vertex, needs a dominator above a threshold.
fn is_above(above: Option<i32>, values: &Values, vertex: u32, source: u32) -> bool
    ensures { result ≡ needed_above above (int_at values.now.at 0) vertex source }
{
    match above {
        None => true,
        Some(t) => t < values.at[0] && vertex != source,
    }
}

/// The label after an arc out of its vertex: none exactly where the arc is shut, where a window or the memory refuses it, or
/// where it lies past the threshold.
pub(crate) fn extend_forward(
    field: &Field,
    top: Option<i32>,
    label: &Label,
    arc: u32,
) -> Option<Label>
    requires agree { PartsAgree field.now }
    requires label { is_label Forward (setting_of field.now) label.now ≡ true }
    requires arc { arc < length (setting_of field.now).graph.arcs }
    requires tail { (arc_at (setting_of field.now).graph.arcs arc).tail ≡ label.now.vertex }
    ensures { result ≡ extension Forward (setting_of field.now) top label.now arc }
{
    if field.is_shut(arc) {
        return None;
    }
    let graph = graph_of(field);
    let values = after(graph, &label.values, arc)?;
    let vertex = graph.arc(arc).head;
    if !is_up_to(top, &values, vertex, graph.ends().sink) {
        return None;
    }
    arrive(field, label, arc, vertex, values)
}

/// The label back over an arc into its vertex: none exactly where the arc is shut, where a window or the memory refuses it,
/// or where it does not lie above the threshold.
pub(crate) fn extend_backward(
    field: &Field,
    above: Option<i32>,
    label: &Label,
    arc: u32,
) -> Option<Label>
    requires agree { PartsAgree field.now }
    requires label { is_label Backward (setting_of field.now) label.now ≡ true }
    requires arc { arc < length (setting_of field.now).graph.arcs }
    requires head { (arc_at (setting_of field.now).graph.arcs arc).head ≡ label.now.vertex }
    ensures { result ≡ extension Backward (setting_of field.now) above label.now arc }
{
    if field.is_shut(arc) {
        return None;
    }
    let graph = graph_of(field);
    let values = before(graph, &label.values, arc)?;
    let vertex = graph.arc(arc).tail;
    if !is_above(above, &values, vertex, graph.ends().source) {
        return None;
    }
    arrive(field, label, arc, vertex, values)
}
