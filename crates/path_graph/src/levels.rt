ghost use Rattle.std.specs.Prelude.{◌≡◌, ℕ, ◌<◌, ◌^◌, length, ◌≤◌, pos, ◌+ℤ◌, ◌*ℤ◌, ◌≤ℤ◌};
ghost use Rattle.path_graph.specs.Fit.{int_at, vertex_at};
ghost use Rattle.path_graph.specs.Walk.{arc_at, Takes, over_of};
ghost use Rattle.path_graph.specs.Rest.{TakesBack, back_of};
ghost use Rattle.path_graph.specs.Within.{AreWithin, IsInLimits, AreInLimits, IsWithin};
ghost use Rattle.path_graph.specs.Level.{level_of};
ghost use Rattle.path_graph.specs.declared.limits.TheConstants.{MAX_VERTICES};

use crate::graph::Graph;
use crate::parts::Values;

/// A value as a wider number.
fn wide(value: &Values, place: usize) -> i64
    requires place { place < 6 }
    requires values { AreInLimits value.now.at }
    ensures value { result ≡ int_at value.now.at place }
    ensures range { IsInLimits result }
{
    value.at[place] as i64
}

/// The sum of two values.
fn sum_of(first: i64, second: i64) -> i64
    requires first { IsInLimits first }
    requires second { IsInLimits second }
    ensures sum { result ≡ first +ℤ second }
    ensures range { IsWithin 200000000 result }
{
    first + second
}

/// The number of vertices times a sum of main values.
fn weighted_sum(count: u32, sum: i64) -> i64
    requires count { count ≤ MAX_VERTICES }
    requires sum { IsWithin 200000000 sum }
    ensures product { result ≡ pos count *ℤ sum }
    ensures range { IsWithin 204800000000 result }
{
    count as i64 * sum
}

/// The same with a rank.
fn with_rank(product: i64, rank: u32) -> i64
    requires product { IsWithin 204800000000 product }
    requires rank { rank < MAX_VERTICES }
    ensures { result ≡ product +ℤ pos rank }
{
    product + rank as i64
}

/// The level of values at a vertex: the number of vertices times the sum of the main values, plus the rank.
///
/// It rises by at least 1 over each arc, forward values and backward values alike, so that there are finitely many
/// feasible walks, and labels can be made in the order of their levels: partial walks by rising levels, rests by
/// falling ones.
pub fn level(g: &Graph, v: u32, value: &Values) -> i64
    requires vertex { v < length g.now.vertices }
    requires value { AreWithin (vertex_at g.now.vertices v).windows value.now }
    ensures level { result ≡ level_of g.now v value.now }
    ensures range { IsWithin (2 ^ 38) result }
    ensures rises { (a : ℕ) → a < length g.now.arcs → (arc_at g.now.arcs a).tail ≡ v → Takes g.now value.now a
        → (result +ℤ pos 1) ≤ℤ (level_of g.now (arc_at g.now.arcs a).head (over_of g.now value.now a)) }
    ensures falls { (a : ℕ) → a < length g.now.arcs → (arc_at g.now.arcs a).head ≡ v → TakesBack g.now value.now a
        → (level_of g.now (arc_at g.now.arcs a).tail (back_of g.now value.now a) +ℤ pos 1) ≤ℤ result }
{
    let count = g.vertex_count();
    let mains = sum_of(wide(value, 0), wide(value, 1));
    with_rank(weighted_sum(count, mains), g.rank(v))
}
