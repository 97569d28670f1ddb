ghost use Rattle.std.specs.Prelude.{◌≡◌, ℕ, ◌<◌, ◌≤◌, ◌+◌, ◌^◌, pos, ◌+ℤ◌, All, MatchOption, length, slice_index};
ghost use Rattle.path_graph.specs.Within.{IsWithin};
ghost use Rattle.rank1_cuts.specs.Fit.{CutFits};
ghost use Rattle.rank1_cuts.specs.Visits.{rises as rises_at, state_after};
ghost use Rattle.ng_sets.specs.Memory.{IsRemembered};
ghost use Rattle.multipliers.specs.Quantities.{cut_at};
ghost use Rattle.label_rules.specs.Labels.{visit_at};
ghost use Rattle.label_rules.specs.Dominance.{StatesFit};
ghost use Rattle.route_labels.specs.Arrival.{AreAfter, Arrives, weight_risen};
ghost use Rattle.route_labels.specs.Fit.{PartsAgree};
ghost use Rattle.route_labels.specs.Meaning.{setting_of};

use crate::field::{Field, graph_of, near_of, visit_cost};
use crate::weights::weight_if;
use label_rules::Label;
use ng_sets::visit;
use path_graph::Values;
use rank1_cuts::{Cut, step_state};

/// The state of a cut by number after a visit, and whether the cut rises there.
fn cut_after(cuts: &[Cut], i: usize, state: u8, set: Option<u16>) -> (u8, bool)
    requires there { i < length cuts.now }
    requires fits { CutFits (cut_at cuts.now i) }
    requires state { state < (cut_at cuts.now i).den }
    ensures state { result.0 ≡ state_after (cut_at cuts.now i) state set }
    ensures rises { result.1 ≡ rises_at (cut_at cuts.now i) state set }
{
    step_state(&cuts[i], state, set)
}

/// The states after a visit, and the weights of the cuts that rise there.
fn states_after(cuts: &[Cut], y: &[u64], states: &[u8; 64], set: Option<u16>) -> ([u8; 64], u64)
    requires few { length cuts.now ≤ 64 }
    requires fit { (i : ℕ) → i < length cuts.now → CutFits (cut_at cuts.now i) }
    requires weights { length y.now ≡ length cuts.now }
    requires light { (i : ℕ) → i < length cuts.now → slice_index y.now i ≤ 2 ^ 48 }
    requires states { (i : ℕ) → i < length cuts.now → slice_index states.now i < (cut_at cuts.now i).den }
    ensures states { AreAfter cuts.now (length cuts.now) states.now set result.0 }
    ensures risen { pos result.1 ≡ weight_risen cuts.now y.now states.now set (length cuts.now) }
    ensures light { result.1 ≤ 2 ^ 54 }
{
    let mut next = [0; 64];
    let mut risen = 0;
    for i in 0..cuts.len() {
        let (state, rises) = cut_after(cuts, i, states[i], set);
        next[i] = state;
        risen += weight_if(y[i], rises);
    }
    (next, risen)
}

/// A cost after an extension.
fn cost_after(cost: i128, arc: i128, visit: i128, risen: u64) -> i128
    requires cost { IsWithin (2 ^ 113) cost }
    requires arc { IsWithin (2 ^ 72 + 2 ^ 54) arc }
    requires visit { IsWithin (2 ^ 54) visit }
    requires risen { risen ≤ 2 ^ 54 }
    ensures { result ≡ ((cost +ℤ arc) +ℤ visit) +ℤ pos risen }
{
    cost + arc + visit + i128::from(risen)
}

/// The label that comes to a vertex over an arc, with these values there: none exactly where its memory refuses the visit.
///
/// It takes one intersection of sets, and looks at the states of the cuts given alone.
pub(crate) fn arrive(
    field: &Field,
    label: &Label,
    arc: u32,
    vertex: u32,
    values: Values,
) -> Option<Label>
    requires agree { PartsAgree field.now }
    requires states { StatesFit (setting_of field.now) label.now }
    requires cost { IsWithin (2 ^ 113) label.now.cost }
    requires arc { arc < length (setting_of field.now).graph.arcs }
    requires vertex { vertex < length (setting_of field.now).graph.vertices }
    ensures { MatchOption result (IsRemembered label.now.memory (visit_at (setting_of field.now) vertex).set)
        (Arrives (setting_of field.now) label.now vertex values arc) }
{
    let set = graph_of(field).vertex(vertex).set;
    let near = near_of(field, vertex);
    let memory = visit(&label.memory, &near, set)?;
    let (states, risen) = states_after(field.cuts, field.y, &label.states, set);
    let visiting = visit_cost(field, set);
    let cost = cost_after(label.cost, field.arc_cost(arc), visiting, risen);
    Some(Label {
        vertex,
        values,
        memory,
        states,
        cost,
    })
}
