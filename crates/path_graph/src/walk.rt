ghost use Rattle.std.specs.Prelude.{◌≡◌, ◌↔◌, ◌^◌, IsTrue, ℕ, ◌<◌, ◌≤◌, length, IfSome, SomeIff, map, ◌+ℤ◌};
ghost use Rattle.std.specs.Int.{int_max};
ghost use Rattle.path_graph.specs.Fit.{vertex_at, window_at};
ghost use Rattle.path_graph.specs.Walk.{arc_at, positions, root_of, moved_at, moved, AreBelow, Takes, over_of, IsFeasibleWalk};
ghost use Rattle.path_graph.specs.Within.{AreWithin, IsInLimits, AreInLimits};

use crate::graph::Graph;
use crate::parts::{GraphArc, Values, Vertex, Window};

/// The low ends of windows.
fn low_ends(windows: &[Window; 6]) -> Values
    ensures { result ≡ record { at = map (λ k. (window_at windows.now k).low) positions } }
{
    Values {
        at: [
            windows[0].low,
            windows[1].low,
            windows[2].low,
            windows[3].low,
            windows[4].low,
            windows[5].low,
        ],
    }
}

/// The values at the source: the low ends of its windows.
#[tactic(auto, using(crate::proofs::WalkLemmas::root_is_within))]
pub fn root_values(g: &Graph) -> Values
    ensures root { result ≡ root_of g.now }
    ensures in_windows { AreWithin (vertex_at g.now.vertices g.now.ends.source).windows result }
{
    low_ends(&g.vertex(g.ends().source).windows)
}

/// A value over an arc with a need, into a window with a low end.
fn waited(value: i32, need: i32, low: i32) -> i32
    requires value { IsInLimits value }
    requires need { IsInLimits need }
    ensures { result ≡ int_max low (value +ℤ need) }
{
    let sum = value + need;
    if sum < low { low } else { sum }
}

/// One value over an arc.
fn value_over(value: &Values, arc: &GraphArc, windows: &[Window; 6], place: usize) -> i32
    requires place { place < 6 }
    requires values { AreInLimits value.now.at }
    requires needs { AreInLimits arc.now.needs }
    ensures { result ≡ moved_at value.now.at arc.now.needs windows.now place }
{
    waited(value.at[place], arc.needs[place], windows[place].low)
}

/// The values over an arc.
fn values_over(value: &Values, arc: &GraphArc, windows: &[Window; 6]) -> Values
    requires values { AreInLimits value.now.at }
    requires needs { AreInLimits arc.now.needs }
    ensures { result ≡ record { at = moved value.now.at arc.now.needs windows.now } }
{
    Values {
        at: [
            value_over(value, arc, windows, 0),
            value_over(value, arc, windows, 1),
            value_over(value, arc, windows, 2),
            value_over(value, arc, windows, 3),
            value_over(value, arc, windows, 4),
            value_over(value, arc, windows, 5),
        ],
    }
}

/// Whether no value is above its window.
fn are_below(value: &Values, windows: &[Window; 6]) -> bool
    ensures { IsTrue result ↔ AreBelow value.now.at windows.now }
{
    for place in 0..6 {
        if value.at[place] > windows[place].high {
            return false;
        }
    }
    true
}

/// The values over an arc: none exactly where a window at its head refuses them.
pub fn after(g: &Graph, value: &Values, arc: u32) -> Option<Values>
    requires arc { arc < length g.now.arcs }
    requires value { AreWithin (vertex_at g.now.vertices (arc_at g.now.arcs arc).tail).windows value.now }
    ensures exact { SomeIff result (Takes g.now value.now arc) (over_of g.now value.now arc) }
    ensures in_windows { IfSome result (AreWithin (vertex_at g.now.vertices (arc_at g.now.arcs arc).head).windows) }
{
    let parts = g.arc(arc);
    let windows = g.vertex(parts.head).windows;
    let next = values_over(value, &parts, &windows);
    if are_below(&next, &windows) {
        Some(next)
    } else {
        None
    }
}

/// Whether the arcs are a feasible walk. An arc that is not there is in none.
pub fn is_walk(g: &Graph, arcs: &[u32]) -> bool
    ensures { IsTrue result ↔ IsFeasibleWalk g.now arcs.now }
{
    let mut place = g.ends().source;
    let mut value = root_values(g);
    for a in arcs {
        if *a >= g.arc_count() {
            return false;
        }
        let arc = g.arc(*a);
        if arc.tail != place {
            return false;
        }
        let Some(next) = after(g, &value, *a) else {
            return false;
        };
        place = arc.head;
        value = next;
    }
    place == g.ends().sink
}
