ghost use Rattle.std.specs.Prelude.{◌≡◌, ◌↔◌, ◌<◌, IsTrue, length, slice_index_or, slice_set, false};
ghost use Rattle.std.specs.Prelude.{◌≤ℤ◌, ◌<ℤ◌};
ghost use Rattle.route_model.specs.PlaceParts.{SplitFits, box_in, high_part, low_part, with_box};
ghost use Rattle.route_model.specs.Places.{SpotFits, is_dropped, span_at};
ghost use Rattle.cert_check.specs.Frames.{HasParts, with_mark};

use path_graph::List;
use route_model::{Model, Quantity, Span, Split, Spot};

/// A box by number; an empty one past the end.
pub(crate) fn span_of(spans: &[Span], k: u32) -> Span
    ensures { result ≡ span_at spans.now k }
{
    match spans.get(k as usize) {
        None => Span { low: 0, high: 0 },
        Some(span) => *span,
    }
}

/// The part of a box up to a number.
pub(crate) fn low_of(span: Span, at: i64) -> Span
    ensures { result ≡ low_part span at }
{
    Span {
        low: span.low,
        high: at,
    }
}

/// The part of a box above a number.
pub(crate) fn high_of(span: Span, at: i64) -> Span
    requires { at <ℤ span.high }
    ensures { result ≡ high_part span at }
{
    Span {
        low: at + 1,
        high: span.high,
    }
}

/// Whether there is a box of this number, neither part of which is empty.
pub(crate) fn has_parts(spans: &[Span], k: u32, at: i64) -> bool
    ensures { IsTrue result ↔ HasParts spans.now k at }
{
    if k as usize >= spans.len() {
        return false;
    }
    let span = span_of(spans, k);
    span.low <= at && at < span.high
}

/// Whether a split is of a variable or path count, neither part of whose box is empty.
pub(crate) fn split_fits(model: &Model, spot: &Spot, split: &Split) -> bool
    requires { SpotFits model.now spot.now }
    ensures { IsTrue result ↔ SplitFits model.now spot.now split.now }
{
    match split.quantity {
        Quantity::Var(j) => has_parts(spot.boxes.vars.as_slice(), j, split.at),
        Quantity::Paths(g) => has_parts(spot.boxes.paths.as_slice(), g, split.at),
        _ => false,
    }
}

/// The box of a variable or path count.
pub(crate) fn box_of(spot: &Spot, quantity: Quantity) -> Span
    ensures { result ≡ box_in spot.now quantity }
{
    match quantity {
        Quantity::Var(j) => span_of(spot.boxes.vars.as_slice(), j),
        Quantity::Paths(g) => span_of(spot.boxes.paths.as_slice(), g),
        _ => Span { low: 0, high: 0 },
    }
}

/// Replaces the box of this number, if there is one.
pub(crate) fn put_span(spans: &mut List<Span>, k: u32, span: Span)
    ensures { spans.new ≡ slice_set spans.old k span }
{
    if (k as usize) < spans.len() {
        spans.set(k as usize, span);
    }
}

/// Replaces the box of a variable or path count.
pub(crate) fn put_box(spot: &mut Spot, quantity: Quantity, span: Span)
    ensures { spot.new ≡ with_box spot.old quantity span }
{
    match quantity {
        Quantity::Var(j) => put_span(&mut spot.boxes.vars, j, span),
        Quantity::Paths(g) => put_span(&mut spot.boxes.paths, g, span),
        _ => {}
    }
}

/// Whether an arc is dropped.
pub(crate) fn has_mark(spot: &Spot, g: u32, a: u32) -> bool
    ensures { result ≡ is_dropped spot.now g a }
{
    match spot.fixed.as_slice().get(g as usize) {
        None => false,
        Some(marks) => mark_of(marks.as_slice(), a),
    }
}

/// A mark by number; none past the end.
fn mark_of(marks: &[bool], a: u32) -> bool
    ensures { result ≡ slice_index_or marks.now a false }
{
    match marks.get(a as usize) {
        None => false,
        Some(mark) => *mark,
    }
}

/// Replaces the mark of an arc.
pub(crate) fn put_mark(spot: &mut Spot, g: u32, a: u32, mark: bool)
    ensures { spot.new ≡ with_mark spot.old g a mark }
{
    if (g as usize) < spot.fixed.len() {
        put_in(spot.fixed.at_mut(g as usize), a, mark);
    }
}

/// Replaces the mark of this number, if there is one.
fn put_in(marks: &mut List<bool>, a: u32, mark: bool)
    ensures { marks.new ≡ slice_set marks.old a mark }
{
    if (a as usize) < marks.len() {
        marks.set(a as usize, mark);
    }
}
