ghost use Rattle.std.specs.Prelude.{◌≡◌, ◌*◌, ◌^◌, ◌*ℤ◌, ◌≤◌, All, length, unsigned_abs};
ghost use Rattle.path_graph.specs.Within.{IsWithin};
ghost use Rattle.route_model.specs.Terms.{or_zero, sides_of, term};
ghost use Rattle.cert_check.specs.Reads.{IsCountBox};
ghost use Rattle.count_trees.specs.Costs.{cost_terms, tops};

use route_model::Span;
use route_model::wide::plus;

/// A cost times a number of paths.
fn times_paths(cost: i128, paths: i64) -> i128
    requires cost { IsWithin (2 ^ 88) cost }
    requires paths { IsWithin 4096 paths }
    ensures { result ≡ cost *ℤ paths }
{
    cost * i128::from(paths)
}

/// The term of a cost over the box of a count.
fn count_term(cost: i128, span: Span) -> i128
    requires cost { IsWithin (2 ^ 88) cost }
    requires span { IsCountBox span }
    ensures term { result ≡ or_zero (term cost (sides_of span)) }
    ensures small { IsWithin (2 ^ 88 * unsigned_abs span.high) result }
{
    if cost >= 0 {
        return times_paths(cost, span.low);
    }
    times_paths(cost, span.high)
}

/// The terms of the costs of walks over the boxes of their counts.
pub(crate) fn term_sum(costs: &[i128], boxes: &[Span]) -> i128
    requires size { length boxes.now ≡ length costs.now }
    requires costs { All (IsWithin (2 ^ 88)) costs.now }
    requires boxes { All IsCountBox boxes.now }
    requires few { tops boxes.now ≤ 2 ^ 37 }
    ensures sum { result ≡ cost_terms costs.now boxes.now }
    ensures small { IsWithin (2 ^ 125) result }
{
    let mut total = 0;
    for (k, span) in boxes.iter().enumerate() {
        total = plus(total, count_term(costs[k], *span));
    }
    total
}
