ghost use Rattle.std.specs.Prelude.{◌≡◌, ◌↔◌, ℕ, ◌<◌, ◌≤◌, IsTrue, length, slice_index};
ghost use Rattle.path_graph.specs.Within.{AreWithin};
ghost use Rattle.multipliers.specs.Quantities.{cut_at};
ghost use Rattle.label_rules.specs.Labels.{Forward, Backward};
ghost use Rattle.label_rules.specs.Spaces.{is_label};
ghost use Rattle.route_labels.specs.Fit.{PartsAgree};
ghost use Rattle.route_labels.specs.Meaning.{setting_of};
ghost use Rattle.route_labels.specs.Rules.{Stands};

use crate::field::{Field, graph_of};
use crate::limits::{is_in_range, negated};
use crate::weights::den_of;
use label_rules::Label;
use path_graph::{Values, Window, level};
use rank1_cuts::Cut;

/// Whether the values lie in the windows.
fn are_within(values: &Values, windows: &[Window; 6]) -> bool
    ensures { IsTrue result ↔ AreWithin windows.now values.now }
{
    for place in 0..6 {
        let value = values.at[place];
        if value < windows[place].low || windows[place].high < value {
            return false;
        }
    }
    true
}

/// Whether each state is below the denominator of its cut.
fn are_below(cuts: &[Cut], states: &[u8; 64]) -> bool
    requires { length cuts.now ≤ 64 }
    ensures { IsTrue result ↔ ((i : ℕ) → i < length cuts.now → slice_index states.now i < (cut_at cuts.now i).den) }
{
    for i in 0..cuts.len() {
        if states[i] >= den_of(cuts, i) {
            return false;
        }
    }
    true
}

/// Whether the states from a number on are 0.
fn are_unused_from(states: &[u8; 64], first: usize) -> bool
    requires { first ≤ 64 }
    ensures { IsTrue result ↔ ((i : ℕ) → i < 64 → first ≤ i → slice_index states.now i ≡ 0) }
{
    for i in first..64 {
        if states[i] != 0 {
            return false;
        }
    }
    true
}

/// Whether a label stands at a vertex of the graph, its values within the windows there, its states below the denominators
/// and 0 from the number of cuts on.
fn stands(field: &Field, l: &Label) -> bool
    requires { PartsAgree field.now }
    ensures { IsTrue result ↔ Stands (setting_of field.now) l.now }
{
    let graph = graph_of(field);
    if l.vertex >= graph.vertex_count() || !are_within(&l.values, &graph.vertex(l.vertex).windows) {
        return false;
    }
    are_below(field.cuts, &l.states) && are_unused_from(&l.states, field.cuts.len())
}

/// Whether a value is the label of a partial walk: it stands in its place, and its cost is in the range of its level.
pub(crate) fn is_forward_label(field: &Field, l: &Label) -> bool
    requires { PartsAgree field.now }
    ensures { result ≡ is_label Forward (setting_of field.now) l.now }
{
    if !stands(field, l) {
        return false;
    }
    is_in_range(l.cost, level(graph_of(field), l.vertex, &l.values))
}

/// Whether a value is the label of a rest.
pub(crate) fn is_backward_label(field: &Field, l: &Label) -> bool
    requires { PartsAgree field.now }
    ensures { result ≡ is_label Backward (setting_of field.now) l.now }
{
    if !stands(field, l) {
        return false;
    }
    is_in_range(l.cost, negated(level(graph_of(field), l.vertex, &l.values)))
}
