ghost use Rattle.std.specs.Prelude.{◌≡◌, ◌↔◌, ◌^◌, ◌≤ℤ◌, ◌-ℤ◌, ℤ, pos, IsTrue};
ghost use Rattle.path_graph.specs.Within.{IsWithin};
ghost use Rattle.multipliers.specs.Quantities.{scaled};
ghost use Rattle.multipliers.specs.Ranges.{AreInRange, PathsFit};
ghost use Rattle.safe_bound.specs.Bounds.{Closes, IsBound, IsUnder};
ghost use Rattle.safe_bound.specs.Promise.{BoundHolds, IsBoundNear, LeastsFit};

use crate::graphs::{first_impossible, term_sum};
use route_model::wide::{minus, plus, product};
use route_model::{Boxes, Priced, SCALE, Span};

/// The bound of a place, or the first graph that has no walk and must have a path.
#[derive(Clone, Copy, Debug, PartialEq, Eq)]
pub enum Bound {
    Value(i128),
    NoPaths(u32),
}

/// The bound of a place: the sum of the terms, and for each graph the term of its least over the box of its path count.
///
/// A graph whose least is none adds 0 where it may have no path; where it must have one, the place has no solution, and
/// `NoPaths` names the first such graph. At the scale of 65,536 to a unit of cost, the bound is at most the cost of each
/// solution within the boxes, if no walk of it has a reduced cost below the least of its graph. The time is linear in
/// the graphs.
pub fn bound_value(priced: &Priced, boxes: &Boxes, leasts: &[Option<i128>]) -> Bound
    requires priced { AreInRange boxes.now priced.now }
    requires leasts { LeastsFit boxes.now.paths leasts.now }
    ensures bound { IsBound boxes.now.paths leasts.now priced.now.base result }
    ensures range { IsBoundNear result }
    ensures holds { BoundHolds priced.now boxes.now leasts.now result }
{
    bound_from(boxes.paths.as_slice(), priced.base, leasts)
}

/// The bound from the sum of the terms and the boxes of the path counts.
fn bound_from(spans: &[Span], base: i128, leasts: &[Option<i128>]) -> Bound
    requires base { IsWithin (2 ^ 107) base }
    requires paths { PathsFit spans.now }
    requires leasts { LeastsFit spans.now leasts.now }
    ensures bound { IsBound spans.now leasts.now base result }
    ensures range { IsBoundNear result }
{
    match first_impossible(spans, leasts, spans.len()) {
        Some(g) => Bound::NoPaths(g),
        None => Bound::Value(plus(base, term_sum(spans, leasts, spans.len()))),
    }
}

/// Whether a place with this bound has no solution that costs less than z: the bound is above 65,536 × (z - 1), or a
/// graph has no walk and must have a path.
pub fn closes(bound: &Bound, z: i64) -> bool
    ensures closes { IsTrue result ↔ Closes bound.now z }
    ensures apart { IsTrue result → (cost : ℤ) → IsUnder bound.now cost → z ≤ℤ cost }
{
    match *bound {
        Bound::Value(value) => value > scaled_below(z),
        Bound::NoPaths(_) => true,
    }
}

/// 65,536 × (z - 1).
pub(crate) fn scaled_below(z: i64) -> i128
    ensures scaled { result ≡ scaled (z -ℤ pos 1) }
    ensures range { IsWithin (2 ^ 80) result }
{
    minus(product(SCALE, z), i128::from(SCALE))
}
