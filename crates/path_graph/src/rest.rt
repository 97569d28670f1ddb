ghost use Rattle.std.specs.Prelude.{◌≡◌, ◌↔◌, ◌++◌, ◌∷◌, IsTrue, ℕ, List, ◌<◌, length, IfSome, SomeIff, map, ◌+ℤ◌, ◌-ℤ◌, ◌≤ℤ◌};
ghost use Rattle.std.specs.Int.{int_min};
ghost use Rattle.path_graph.specs.Fit.{vertex_at, window_at, int_at};
ghost use Rattle.path_graph.specs.Walk.{arc_at, positions, IsFeasibleWalk};
ghost use Rattle.path_graph.specs.Rest.{end_of, moved_back_at, moved_back, back_of, AreAbove, TakesBack, IsPartial, IsRest, HasNoBackward, JoinOver, Join};
ghost use Rattle.path_graph.specs.Within.{AreWithin, IsInLimits, AreInLimits};

use crate::graph::Graph;
use crate::parts::{GraphArc, Values, Window};

/// The high ends of windows.
fn high_ends(windows: &[Window; 6]) -> Values
    ensures { result ≡ record { at = map (λ k. (window_at windows.now k).high) positions } }
{
    Values {
        at: [
            windows[0].high,
            windows[1].high,
            windows[2].high,
            windows[3].high,
            windows[4].high,
            windows[5].high,
        ],
    }
}

/// The backward values at the sink: the high ends of its windows.
#[tactic(auto, using(crate::proofs::RestLemmas::end_is_within))]
pub fn end_values(g: &Graph) -> Values
    ensures end { result ≡ end_of g.now }
    ensures in_windows { AreWithin (vertex_at g.now.vertices g.now.ends.sink).windows result }
{
    high_ends(&g.vertex(g.ends().sink).windows)
}

/// A value back over an arc with a need, into a window with a high end.
fn capped(value: i32, need: i32, high: i32) -> i32
    requires value { IsInLimits value }
    requires need { IsInLimits need }
    ensures { result ≡ int_min high (value -ℤ need) }
{
    let difference = value - need;
    if difference > high { high } else { difference }
}

/// One value back over an arc.
fn value_back(value: &Values, arc: &GraphArc, windows: &[Window; 6], place: usize) -> i32
    requires place { place < 6 }
    requires values { AreInLimits value.now.at }
    requires needs { AreInLimits arc.now.needs }
    ensures { result ≡ moved_back_at value.now.at arc.now.needs windows.now place }
{
    capped(value.at[place], arc.needs[place], windows[place].high)
}

/// The values back over an arc.
fn values_back(value: &Values, arc: &GraphArc, windows: &[Window; 6]) -> Values
    requires values { AreInLimits value.now.at }
    requires needs { AreInLimits arc.now.needs }
    ensures { result ≡ record { at = moved_back value.now.at arc.now.needs windows.now } }
{
    Values {
        at: [
            value_back(value, arc, windows, 0),
            value_back(value, arc, windows, 1),
            value_back(value, arc, windows, 2),
            value_back(value, arc, windows, 3),
            value_back(value, arc, windows, 4),
            value_back(value, arc, windows, 5),
        ],
    }
}

/// Whether no value is below its window.
fn are_above(value: &Values, windows: &[Window; 6]) -> bool
    ensures { IsTrue result ↔ AreAbove value.now.at windows.now }
{
    for place in 0..6 {
        if value.at[place] < windows[place].low {
            return false;
        }
    }
    true
}

/// The backward values over an arc, at its tail: none exactly where a window there refuses them.
pub fn before(g: &Graph, value: &Values, arc: u32) -> Option<Values>
    requires arc { arc < length g.now.arcs }
    requires value { AreWithin (vertex_at g.now.vertices (arc_at g.now.arcs arc).head).windows value.now }
    ensures exact { SomeIff result (TakesBack g.now value.now arc) (back_of g.now value.now arc) }
    ensures in_windows { IfSome result (AreWithin (vertex_at g.now.vertices (arc_at g.now.arcs arc).tail).windows) }
{
    let parts = g.arc(arc);
    let windows = g.vertex(parts.tail).windows;
    let next = values_back(value, &parts, &windows);
    if are_above(&next, &windows) {
        Some(next)
    } else {
        None
    }
}

/// Whether a value and a need are at most another value.
fn is_at_most(front: i32, need: i32, back: i32) -> bool
    requires front { IsInLimits front }
    requires need { IsInLimits need }
    ensures { IsTrue result ↔ (front +ℤ need) ≤ℤ back }
{
    front + need <= back
}

/// Whether each value and the need of the arc are at most the other value.
fn are_at_most(front: &Values, arc: &GraphArc, back: &Values) -> bool
    requires front { AreInLimits front.now.at }
    requires needs { AreInLimits arc.now.needs }
    ensures { IsTrue result ↔ JoinOver front.now arc.now back.now }
{
    for place in 0..6 {
        if !is_at_most(front.at[place], arc.needs[place], back.at[place]) {
            return false;
        }
    }
    true
}

/// Whether forward values at the tail of an arc and backward values at its head join over it: each forward value and the
/// need are at most the backward value.
///
/// So a partial walk and a rest are tested without their arcs: the walk through the arc is feasible exactly where their
/// values join. A rest without backward values is joined by no partial walk.
pub fn joins(g: &Graph, front: &Values, arc: u32, back: &Values) -> bool
    requires arc { arc < length g.now.arcs }
    requires front { AreWithin (vertex_at g.now.vertices (arc_at g.now.arcs arc).tail).windows front.now }
    requires back { AreWithin (vertex_at g.now.vertices (arc_at g.now.arcs arc).head).windows back.now }
    ensures joins { IsTrue result ↔ Join g.now front.now arc back.now }
    ensures walk { (first rest : List ℕ) → IsPartial g.now first (arc_at g.now.arcs arc).tail front.now
        → IsRest g.now rest (arc_at g.now.arcs arc).head back.now
        → (IsTrue result ↔ IsFeasibleWalk g.now (first ++ arc ∷ rest)) }
    ensures alone { (first rest : List ℕ) → HasNoBackward g.now rest
        → IsFeasibleWalk g.now (first ++ arc ∷ rest) → ⊥ }
{
    are_at_most(front, &g.arc(arc), back)
}
