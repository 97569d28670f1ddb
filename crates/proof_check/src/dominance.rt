ghost use Rattle.std.specs.Prelude.{◌≡◌, ◌↔◌, ℕ, ◌<◌, ◌≤◌, ◌^◌, pos, ◌+ℤ◌, ◌≤ℤ◌, IsTrue, length, slice_index};
ghost use Rattle.path_graph.specs.Fit.{int_at};
ghost use Rattle.path_graph.specs.SetBits.{IsSubset};
ghost use Rattle.path_graph.specs.Within.{IsWithin};
ghost use Rattle.label_rules.specs.Dominance.{Dominates, IsNoWorse};
ghost use Rattle.route_labels.specs.Arrival.{weight_over};
ghost use Rattle.route_labels.specs.Fit.{PartsAgree};
ghost use Rattle.route_labels.specs.Meaning.{setting_of};
ghost use Rattle.proof_check.specs.Ways.{direction_of};

use path_graph::Values;
use route_labels::{Field, Label, weight_if};

/// Whether each value is at most the other one.
fn are_at_most(few: &Values, many: &Values) -> bool
    ensures { IsTrue result ↔ ((k : ℕ) → k < 6 → int_at few.now.at k ≤ℤ int_at many.now.at k) }
{
    for place in 0..6 {
        if few.at[place] > many.at[place] {
            return false;
        }
    }
    true
}

/// Whether each value leaves as much room as the other one: forward it is at most the other, backward at least.
fn are_no_worse(backward: bool, a: &Values, b: &Values) -> bool
    ensures { IsTrue result ↔ ((k : ℕ) → k < 6 → IsNoWorse (direction_of backward) (int_at a.now.at k) (int_at b.now.at k)) }
{
    if backward {
        are_at_most(b, a)
    } else {
        are_at_most(a, b)
    }
}

/// The weights of the cuts whose state is greater in the first list than in the second.
fn weight_above(y: &[u64], a: &[u8; 64], b: &[u8; 64]) -> u64
    requires few { length y.now ≤ 64 }
    requires light { (i : ℕ) → i < length y.now → slice_index y.now i ≤ 2 ^ 48 }
    ensures weight { pos result ≡ weight_over y.now a.now b.now (length y.now) }
    ensures light { result ≤ 2 ^ 54 }
{
    let mut weight = 0;
    for (i, w) in y.iter().enumerate() {
        weight += weight_if(*w, b[i] < a[i]);
    }
    weight
}

/// Whether a cost and a weight are at most a cost.
fn is_within(cost: i128, weight: u64, most: i128) -> bool
    requires cost { IsWithin (2 ^ 113) cost }
    requires weight { weight ≤ 2 ^ 54 }
    ensures { IsTrue result ↔ (cost +ℤ pos weight) ≤ℤ most }
{
    cost + i128::from(weight) <= most
}

/// Whether the memory of a label is within another's, and its cost with the weights of the cuts whose state is greater in it
/// is at most the other's.
fn costs_no_more(field: &Field, a: &Label, b: &Label) -> bool
    requires agree { PartsAgree field.now }
    requires cost { IsWithin (2 ^ 113) a.now.cost }
    ensures { IsTrue result ↔ (IsSubset a.now.memory b.now.memory
        × (a.now.cost +ℤ weight_over field.now.y.now a.now.states b.now.states (length field.now.cuts.now)) ≤ℤ b.now.cost) }
{
    if !a.memory.within(&b.memory) {
        return false;
    }
    is_within(a.cost, weight_above(field.y, &a.states, &b.states), b.cost)
}

/// Whether the first label dominates the second.
///
/// It is asked of the labels of a text as they stand: they need not lie in their windows.
pub(crate) fn dominates(field: &Field, backward: bool, a: &Label, b: &Label) -> bool
    requires agree { PartsAgree field.now }
    requires cost { IsWithin (2 ^ 113) a.now.cost }
    ensures { IsTrue result ↔ Dominates (direction_of backward) (setting_of field.now) a.now b.now }
{
    if a.vertex != b.vertex || a.cost > b.cost {
        return false;
    }
    if !are_no_worse(backward, &a.values, &b.values) {
        return false;
    }
    costs_no_more(field, a, b)
}
