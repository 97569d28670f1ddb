ghost use Rattle.std.specs.Prelude.{◌≡◌, ◌<◌, ◌^◌, ◌-ℤ◌, ◌≤ℤ◌, ◌||◌, IfSome, length, pos};
ghost use Rattle.route_model.specs.Places.{ends_at_zero};
ghost use Rattle.path_graph.specs.Within.{IsWithin};
ghost use Rattle.multipliers.specs.Ranges.{AreInRange, PathsFit};
ghost use Rattle.safe_bound.specs.Bounds.{all_above, is_none, limit_of, others as others_of};
ghost use Rattle.safe_bound.specs.Promise.{IsCountBox, LeastsFit, LimitHolds};

use crate::bounds::scaled_below;
use crate::graphs::{are_possible, graph_term, term_sum};
use route_model::wide::minus;
use route_model::{Boxes, Priced, Span};

/// The limit of a walk of a graph against z: a walk of a greater reduced cost is in no solution of the place that costs
/// less than z.
///
/// It is 65,536 × (z - 1) less the sum of the terms, less what the other graphs add to the bound, less the term of the
/// graph's own least over the numbers of paths beside one. `None` comes exactly where every walk of the graph is above
/// the limit: another graph shows that the place has no solution, or the graph has no least, or may have no path. The
/// time is linear in the graphs. Fixing by reduced costs is that of Irnich, Desaulniers, Desrosiers and Hadjar (2010).
pub fn walk_limit(
    priced: &Priced,
    boxes: &Boxes,
    leasts: &[Option<i128>],
    g: u32,
    z: i64,
) -> Option<i128>
    requires priced { AreInRange boxes.now priced.now }
    requires leasts { LeastsFit boxes.now.paths leasts.now }
    requires graph { g < length boxes.now.paths }
    ensures limit { result ≡ limit_of (length boxes.now.paths) boxes.now.paths leasts.now priced.now.base g z }
    ensures range { IfSome result (IsWithin (2 ^ 126)) }
    ensures holds { LimitHolds priced.now boxes.now leasts.now g z result }
{
    limit_from(boxes.paths.as_slice(), priced.base, leasts, g as usize, z)
}

/// The limit from the sum of the terms and the boxes of the path counts.
fn limit_from(spans: &[Span], base: i128, leasts: &[Option<i128>], g: usize, z: i64) -> Option<i128>
    requires base { IsWithin (2 ^ 107) base }
    requires paths { PathsFit spans.now }
    requires leasts { LeastsFit spans.now leasts.now }
    requires graph { g < length spans.now }
    ensures limit { result ≡ limit_of (length spans.now) spans.now leasts.now base g z }
    ensures range { IfSome result (IsWithin (2 ^ 126)) }
{
    if are_above(spans, leasts, g) {
        return None;
    }
    let beside = term_sum(spans, leasts, g);
    let own = graph_term(leasts[g], others(spans[g]));
    Some(less_all(scaled_below(z), base, beside, own))
}

/// Whether every walk of a graph is above the limit.
fn are_above(spans: &[Span], leasts: &[Option<i128>], g: usize) -> bool
    requires paths { PathsFit spans.now }
    requires leasts { LeastsFit spans.now leasts.now }
    requires graph { g < length spans.now }
    ensures { result ≡ all_above (length spans.now) spans.now leasts.now g }
{
    !are_possible(spans, leasts, g) || has_no_walk(leasts[g], spans[g])
}

/// Whether a graph has no least, or may have no path.
fn has_no_walk(least: Option<i128>, span: Span) -> bool
    ensures { result ≡ (is_none least || ends_at_zero span) }
{
    least.is_none() || span.high <= 0
}

/// How many paths there may be beside one.
fn others(span: Span) -> Span
    requires span { IsCountBox span }
    requires some { pos 1 ≤ℤ span.high }
    ensures { result ≡ others_of span }
{
    Span {
        low: span.low.max(1) - 1,
        high: span.high - 1,
    }
}

/// A number less three others, which fits.
fn less_all(number: i128, base: i128, beside: i128, own: i128) -> i128
    requires number { IsWithin (2 ^ 80) number }
    requires base { IsWithin (2 ^ 107) base }
    requires beside { IsWithin (2 ^ 124) beside }
    requires own { IsWithin (2 ^ 124) own }
    ensures less { result ≡ number -ℤ base -ℤ beside -ℤ own }
    ensures range { IsWithin (2 ^ 126) result }
{
    minus(minus(minus(number, base), beside), own)
}
