ghost use Rattle.std.specs.Prelude.{◌≡◌, ◌↔◌, ℕ, ◌<◌, ◌≤◌, ◌+◌, ◌^◌, nat_le, false, pos, ◌+ℤ◌, IsTrue, MatchOption, length, slice_index};
ghost use Rattle.path_graph.specs.SetBits.{has_set};
ghost use Rattle.path_graph.specs.Walk.{arc_at};
ghost use Rattle.path_graph.specs.Within.{IsWithin};
ghost use Rattle.multipliers.specs.Quantities.{cut_at};
ghost use Rattle.label_rules.specs.Joins.{Joins};
ghost use Rattle.label_rules.specs.Memories.{AreDisjoint};
ghost use Rattle.route_labels.specs.Fit.{FieldFits, PartsAgree};
ghost use Rattle.route_labels.specs.Meaning.{setting_of};
ghost use Rattle.concatenate.specs.Costs.{IsCostOf, weight_reached as weight_of};
ghost use Rattle.concatenate.specs.Fit.{MayJoin};

use path_graph::{Graph, SetBits, joins};
use rank1_cuts::Cut;
use route_labels::{Field, Label, den_of, weight_if};

/// The cost of the join of a forward label at the tail of an arc and a backward label at its head: none exactly where the
/// arc is shut, where a value does not join, or where the memories meet.
///
/// It is both costs, the arc's, and the weight of each cut whose two states make up its denominator: there the cut rises
/// once more on the joined walk than on its parts. It takes no memory.
pub fn join_cost(field: &Field, f: &Label, arc: u32, b: &Label) -> Option<i128>
    requires field { FieldFits field.now }
    requires front { MayJoin (setting_of field.now) f.now }
    requires rest { MayJoin (setting_of field.now) b.now }
    requires arc { arc < length (setting_of field.now).graph.arcs }
    requires tail { (arc_at (setting_of field.now).graph.arcs arc).tail ≡ f.now.vertex }
    requires head { (arc_at (setting_of field.now).graph.arcs arc).head ≡ b.now.vertex }
    ensures { MatchOption result (¬ (Joins (setting_of field.now) f.now arc b.now)) (IsCostOf (setting_of field.now) f.now arc b.now) }
{
    let graph = field.path_graph();
    if field.is_shut(arc) {
        return None;
    }
    cost_over(field, graph, f, arc, b)
}

/// The same over an arc that is open.
pub(crate) fn cost_over(
    field: &Field,
    graph: &Graph,
    f: &Label,
    arc: u32,
    b: &Label,
) -> Option<i128>
    requires agree { PartsAgree field.now }
    requires graph { graph.now ≡ (setting_of field.now).graph }
    requires open_arc { (setting_of field.now).is_shut arc ≡ false }
    requires front { MayJoin (setting_of field.now) f.now }
    requires rest { MayJoin (setting_of field.now) b.now }
    requires arc { arc < length (setting_of field.now).graph.arcs }
    requires tail { (arc_at (setting_of field.now).graph.arcs arc).tail ≡ f.now.vertex }
    requires head { (arc_at (setting_of field.now).graph.arcs arc).head ≡ b.now.vertex }
    ensures { MatchOption result (¬ (Joins (setting_of field.now) f.now arc b.now)) (IsCostOf (setting_of field.now) f.now arc b.now) }
{
    if !joins(graph, &f.values, arc, &b.values) || !are_disjoint(&f.memory, &b.memory) {
        return None;
    }
    let reached = weight_reached(field.cuts, field.y, &f.states, &b.states);
    Some(cost_of(f.cost, b.cost, field.arc_cost(arc), reached))
}

/// Whether two sets have no member in common.
fn are_disjoint(a: &SetBits, b: &SetBits) -> bool
    ensures { IsTrue result ↔ AreDisjoint (has_set a.now) (has_set b.now) }
{
    a.meet(b) == SetBits::empty()
}

/// Whether two states make up a denominator.
fn is_reached(den: u8, front: u8, rest: u8) -> bool
    ensures { result ≡ nat_le den (front + rest) }
{
    u16::from(den) <= u16::from(front) + u16::from(rest)
}

/// The weights of the cuts whose two states make up the denominator.
fn weight_reached(cuts: &[Cut], y: &[u64], front: &[u8; 64], rest: &[u8; 64]) -> u64
    requires few { length cuts.now ≤ 64 }
    requires weights { length y.now ≡ length cuts.now }
    requires light { (i : ℕ) → i < length cuts.now → slice_index y.now i ≤ 2 ^ 48 }
    ensures weight { pos result ≡ weight_of cuts.now y.now front.now rest.now (length cuts.now) }
    ensures light { result ≤ 2 ^ 54 }
{
    let mut weight = 0;
    for i in 0..cuts.len() {
        weight += weight_if(y[i], is_reached(den_of(cuts, i), front[i], rest[i]));
    }
    weight
}

/// The cost of a join from its parts.
fn cost_of(front: i128, rest: i128, arc: i128, reached: u64) -> i128
    requires front { IsWithin (2 ^ 112) front }
    requires rest { IsWithin (2 ^ 112) rest }
    requires arc { IsWithin (2 ^ 72 + 2 ^ 54) arc }
    requires reached { reached ≤ 2 ^ 54 }
    ensures { result ≡ ((front +ℤ rest) +ℤ arc) +ℤ pos reached }
{
    front + rest + arc + i128::from(reached)
}
