ghost use Rattle.std.specs.Prelude.{◌≡◌, ◌*◌, ◌*ℤ◌, ◌^◌, pos, true, ◌||◌, ◌==◌, unsigned_abs, if◌then◌else◌, MatchOption, length};
ghost use Rattle.path_graph.specs.declared.limits.TheConstants.{MAX_PATHS};
ghost use Rattle.path_graph.specs.First.{EachBelow, IsFirstFault};
ghost use Rattle.path_graph.specs.Within.{IsWithin};
ghost use Rattle.route_model.specs.Places.{span_at};
ghost use Rattle.multipliers.specs.Ranges.{PathsFit};
ghost use Rattle.safe_bound.specs.Bounds.{are_possible_but, graph_term as term_of_graph, is_possible as possible, least_at, terms_but};
ghost use Rattle.safe_bound.specs.Promise.{IsCountBox, IsLeastNear, LeastsFit};

use route_model::Span;
use route_model::wide::plus;

/// The first graph, but one, that has no walk and must have a path.
pub(crate) fn first_impossible(spans: &[Span], leasts: &[Option<i128>], but: usize) -> Option<u32>
    requires paths { PathsFit spans.now }
    requires leasts { LeastsFit spans.now leasts.now }
    ensures { MatchOption result
        (EachBelow (length spans.now) (λ g. ((g == but) || possible (least_at leasts.now g) (span_at spans.now g)) ≡ true))
        (IsFirstFault (length spans.now) (λ g. ((g == but) || possible (least_at leasts.now g) (span_at spans.now g)) ≡ true)) }
{
    for (g, span) in spans.iter().enumerate() {
        if !is_left(g == but, leasts[g], *span) {
            return Some(g as u32);
        }
    }
    None
}

/// Whether no graph, but one, has no walk and must have a path.
pub(crate) fn are_possible(spans: &[Span], leasts: &[Option<i128>], but: usize) -> bool
    requires paths { PathsFit spans.now }
    requires leasts { LeastsFit spans.now leasts.now }
    ensures { result ≡ are_possible_but (length spans.now) spans.now leasts.now but }
{
    match first_impossible(spans, leasts, but) {
        Some(_) => false,
        None => true,
    }
}

/// Whether a graph is left aside, or may have as few paths as it must: one without walk may have none.
fn is_left(aside: bool, least: Option<i128>, span: Span) -> bool
    ensures { result ≡ (aside || possible least span) }
{
    if aside {
        return true;
    }
    match least {
        Some(_) => true,
        None => span.low <= 0,
    }
}

/// What the graphs but one add to a bound.
pub(crate) fn term_sum(spans: &[Span], leasts: &[Option<i128>], but: usize) -> i128
    requires paths { PathsFit spans.now }
    requires leasts { LeastsFit spans.now leasts.now }
    ensures sum { result ≡ terms_but (length spans.now) spans.now leasts.now but }
    ensures range { IsWithin (2 ^ 124) result }
{
    let mut total = 0;
    for (g, span) in spans.iter().enumerate() {
        total = plus(total, term_unless(g == but, leasts[g], *span));
    }
    total
}

/// What a graph adds, or 0 where it is left aside.
fn term_unless(aside: bool, least: Option<i128>, span: Span) -> i128
    requires least { IsLeastNear least }
    requires span { IsCountBox span }
    ensures term { result ≡ (if aside then pos 0 else term_of_graph least span) }
    ensures range { IsWithin (2 ^ 112 * unsigned_abs span.high) result }
{
    if aside { 0 } else { graph_term(least, span) }
}

/// What a graph adds: its least times the least number of its paths, or the greatest where the least is below 0.
pub(crate) fn graph_term(least: Option<i128>, span: Span) -> i128
    requires least { IsLeastNear least }
    requires span { IsCountBox span }
    ensures { result ≡ term_of_graph least span }
{
    match least {
        Some(least) => times_paths(least, if least >= 0 { span.low } else { span.high }),
        None => 0,
    }
}

/// A least times a number of paths.
fn times_paths(least: i128, paths: i64) -> i128
    requires least { IsWithin (2 ^ 112) least }
    requires paths { IsWithin MAX_PATHS paths }
    ensures { result ≡ least *ℤ paths }
{
    least * i128::from(paths)
}
