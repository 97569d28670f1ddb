ghost use Rattle.std.specs.Prelude.{◌≡◌, ℕ, ◌*◌, ◌<◌, ◌≤◌, ◌^◌, ℤ, pos, neg_ℤ, All, MatchResult, IfOk, IfSome, IsSome, length, slice_index};
ghost use Rattle.path_graph.specs.Fit.{int_at};
ghost use Rattle.path_graph.specs.Sums.{sum_below};
ghost use Rattle.path_graph.specs.Within.{IsWithin};
ghost use Rattle.rank1_cuts.specs.Fit.{CutFits, right_side_of};
ghost use Rattle.path_graph.specs.First.{EachBelow, IsFirstFault};
ghost use Rattle.route_model.specs.Fit.{SidesFit};
ghost use Rattle.route_model.specs.Parts.{row_at};
ghost use Rattle.route_model.specs.Places.{span_at};
ghost use Rattle.route_model.specs.Terms.{or_zero, sides_of, sides_of_row, up_to};
ghost use Rattle.route_model.specs.Terms.{term as term_over};
ghost use Rattle.multipliers.specs.Quantities.{cut_at};
ghost use Rattle.multipliers.specs.Ranges.{IsNear};

use rank1_cuts::{Cut, right_side};
use route_model::wide::{plus, product};
use route_model::{Row, Span, term};

/// The most cuts that have multipliers at once.
pub const MAX_CUTS: usize = 64;

/// The term of a multiplier over a box, neither side of which is open.
fn span_term(m: i64, span: Span) -> i128
    requires m { IsWithin (2 ^ 48) m }
    requires span { IsNear span }
    ensures value { result ≡ or_zero (term_over m (sides_of span)) }
    ensures small { IsWithin (2 ^ 48 * 1000000000000) result }
{
    product(m, if m >= 0 { span.low } else { span.high })
}

/// The sum of the terms of boxes.
pub(crate) fn span_terms(mults: &[i64], spans: &[Span]) -> i128
    requires few { length spans.now ≤ 30000 }
    requires mults { length mults.now ≡ length spans.now }
    requires range { All (IsWithin (2 ^ 48)) mults.now }
    requires near { All IsNear spans.now }
    ensures sum { result ≡ sum_below (length spans.now) (λ k. or_zero (term_over (int_at mults.now k) (sides_of (span_at spans.now k)))) }
    ensures small { IsWithin (2 ^ 104) result }
{
    let mut total = 0;
    for (k, span) in spans.iter().enumerate() {
        total = plus(total, span_term(mults[k], *span));
    }
    total
}

/// The sum of the terms of packing sets, each of which is visited at most once.
pub(crate) fn set_terms(mults: &[i64]) -> i128
    requires few { length mults.now ≤ 512 }
    requires range { All (IsWithin (2 ^ 48)) mults.now }
    ensures sum { result ≡ sum_below (length mults.now) (λ s. or_zero (term_over (int_at mults.now s) (up_to 1))) }
    ensures small { IsWithin (2 ^ 104) result }
{
    let mut total = 0;
    for mult in mults {
        total = plus(total, span_term(*mult, Span { low: 0, high: 1 }));
    }
    total
}

/// The term of a cut.
fn cut_term(y: u64, cut: &Cut) -> i128
    requires y { y ≤ 2 ^ 48 }
    requires fits { CutFits cut.now }
    ensures value { result ≡ or_zero (term_over (neg_ℤ (pos y)) (up_to (right_side_of cut.now))) }
    ensures small { IsWithin (2 ^ 48 * 1000000000000) result }
{
    span_term(
        -(y as i64),
        Span {
            low: 0,
            high: i64::from(right_side(cut)),
        },
    )
}

/// The sum of the terms of cuts.
pub(crate) fn cut_terms(mults: &[u64], cuts: &[Cut]) -> i128
    requires few { length cuts.now ≤ 64 }
    requires mults { length mults.now ≡ length cuts.now }
    requires range { All (λ y. y ≤ 2 ^ 48) mults.now }
    requires fit { All CutFits cuts.now }
    ensures sum { result ≡ sum_below (length cuts.now) (λ c. or_zero (term_over (neg_ℤ (pos (slice_index mults.now c))) (up_to (right_side_of (cut_at cuts.now c))))) }
    ensures small { IsWithin (2 ^ 104) result }
{
    let mut total = 0;
    for (c, cut) in cuts.iter().enumerate() {
        total = plus(total, cut_term(mults[c], cut));
    }
    total
}

/// The term of a row, or none where its multiplier needs an open side.
fn row_term(m: i64, row: &Row) -> Option<i128>
    requires m { IsWithin (2 ^ 48) m }
    requires fits { SidesFit row.now.low row.now.high }
    ensures term { result ≡ term_over m (sides_of_row row.now) }
    ensures small { IfSome result (IsWithin (2 ^ 48 * 1000000000000)) }
{
    term(m, row.low, row.high)
}

/// The sum of the terms of rows, or the first row whose multiplier needs an open side.
pub(crate) fn row_terms(mults: &[i64], rows: &[Row]) -> Result<i128, u32>
    requires few { length rows.now ≤ 5000 }
    requires mults { length mults.now ≡ length rows.now }
    requires range { All (IsWithin (2 ^ 48)) mults.now }
    requires fit { All (λ row. SidesFit row.low row.high) rows.now }
    ensures sum { IfOk result (λ total. total ≡ sum_below (length rows.now) (λ i. or_zero (term_over (int_at mults.now i) (sides_of_row (row_at rows.now i))))) }
    ensures small { IfOk result (IsWithin (2 ^ 104)) }
    ensures defined { MatchResult result
        (λ total. EachBelow (length rows.now) (λ i. IsSome (term_over (int_at mults.now i) (sides_of_row (row_at rows.now i)))))
        (IsFirstFault (length rows.now) (λ i. IsSome (term_over (int_at mults.now i) (sides_of_row (row_at rows.now i))))) }
{
    let mut total = 0;
    for (i, row) in rows.iter().enumerate() {
        match row_term(mults[i], row) {
            Some(term) => total = plus(total, term),
            None => return Err(i as u32),
        }
    }
    Ok(total)
}
