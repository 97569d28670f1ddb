//! The split of a place at the box of a variable or path count.

ghost use Rattle.std.specs.Prelude.{◌≡◌, ◌<◌, ◌<ℤ◌, ◌↔◌, IfOk, IfSome, IsTrue, length, reverse, slice_set};
ghost use Rattle.route_model.specs.PlaceParts.{SplitFits, box_in, high_part, low_part, with_box};
ghost use Rattle.route_model.specs.Places.{span_at};
ghost use Rattle.search_tree.specs.Places.{all_valued};
ghost use Rattle.column_rounds.specs.Found.{IsSplitAt};
ghost use Rattle.place_nodes.specs.Bounds.{IsOpenBound};
ghost use Rattle.place_nodes.specs.Proofs.{IsPlaceProof};
ghost use Rattle.place_nodes.specs.Splits.{IsWideAt, both_valued, parts_opened, split_at};
ghost use Rattle.place_nodes.specs.Tasks.{IsPricedAt, IsWorkedAt, TaskFits};
ghost use Rattle.place_nodes.specs.Worked.{HasCutOff};

use crate::proof::Known;
use crate::task::Task;
use crate::values::raised;
use crate::work::Worked;
use certificate::NodeForm;
use made_nodes::MadeNode;
use path_graph::{List, NoMemory};
use route_model::{Quantity, Span, Split, Spot};
use search_tree::{OpenItem, OpenPlace};
use std::alloc::Global;

/// Whether a box is a point.
fn is_point(span: Span) -> bool
    ensures { IsTrue result ↔ (span.low ≡ span.high) }
{
    span.low == span.high
}

/// The first box that is no point, if there is one.
pub(crate) fn first_wide(spans: &[Span]) -> Option<usize>
    ensures { IsWideAt spans.now result }
{
    for (j, span) in spans.iter().enumerate() {
        if !is_point(*span) {
            return Some(j);
        }
    }
    None
}

/// The split of the place at the low end of the box of a variable.
pub(crate) fn split_of(spot: &Spot, j: usize) -> Split
    requires inside { j < length spot.now.boxes.vars }
    requires few { j < 4294967296 }
    ensures { result ≡ split_at spot.now j }
{
    Split {
        quantity: Quantity::Var(j as u32),
        at: spot.boxes.vars.at(j).low,
    }
}

/// A split that is given, unless the boxes of all variables are points: then there is none.
pub(crate) fn split_unless_fixed(task: &Task, split: Option<Split>) -> Option<Split>
    requires { IsSplitAt task.now.model.now task.now.spot.now split }
    ensures { IfSome result (SplitFits task.now.model.now task.now.spot.now) }
{
    let spot = task.spot;
    match first_wide(spot.boxes.vars.as_slice()) {
        None => None,
        Some(_) => split,
    }
}

/// A box by number.
fn span_of(spans: &[Span], k: u32) -> Span
    ensures { result ≡ span_at spans.now k }
{
    match spans.get(k as usize) {
        None => Span { low: 0, high: 0 },
        Some(span) => *span,
    }
}

/// The box of a variable or path count.
fn box_of(spot: &Spot, quantity: Quantity) -> Span
    ensures { result ≡ box_in spot.now quantity }
{
    match quantity {
        Quantity::Var(j) => span_of(spot.boxes.vars.as_slice(), j),
        Quantity::Paths(g) => span_of(spot.boxes.paths.as_slice(), g),
        _ => Span { low: 0, high: 0 },
    }
}

/// Replaces the box of this number, if there is one.
fn put_span(spans: &mut List<Span>, k: u32, span: Span)
    ensures { spans.new ≡ slice_set spans.old k span }
{
    if (k as usize) < spans.len() {
        spans.set(k as usize, span);
    }
}

/// Replaces the box of a variable or path count.
fn put_box(spot: &mut Spot, quantity: Quantity, span: Span)
    ensures { spot.new ≡ with_box spot.old quantity span }
{
    match quantity {
        Quantity::Var(j) => put_span(&mut spot.boxes.vars, j, span),
        Quantity::Paths(g) => put_span(&mut spot.boxes.paths, g, span),
        _ => {}
    }
}

/// The place with another box for a variable or path count.
fn part(alloc: Global, spot: &Spot, quantity: Quantity, span: Span) -> Result<Spot, NoMemory>
    ensures { IfOk result (λ part. part ≡ with_box spot.now quantity span) }
{
    let mut part = spot.copy(alloc)?;
    put_box(&mut part, quantity, span);
    Ok(part)
}

/// A box up to a number.
fn low_of(span: Span, at: i64) -> Span
    ensures { result ≡ low_part span at }
{
    Span {
        low: span.low,
        high: at,
    }
}

/// A box above a number.
fn high_of(span: Span, at: i64) -> Span
    requires { at <ℤ span.high }
    ensures { result ≡ high_part span at }
{
    Span {
        low: at + 1,
        high: span.high,
    }
}

/// Two places are open, the upper one put first, so that the lower one is taken next.
fn both_open(
    alloc: Global,
    below: Spot,
    above: Spot,
    value: i64,
) -> Result<Vec<OpenPlace>, NoMemory>
    ensures { IfOk result (λ opened. all_valued (reverse opened.items) ≡ both_valued below above value) }
{
    let mut opened = Vec::new(alloc);
    opened.push(OpenPlace {
        item: OpenItem::Place(above),
        value,
    })?;
    opened.push(OpenPlace {
        item: OpenItem::Place(below),
        value,
    })?;
    Ok(opened)
}

/// Both parts of the place: the box up to the number of the split, and the box above it.
fn parts(alloc: Global, spot: &Spot, split: Split, value: i64) -> Result<Vec<OpenPlace>, NoMemory>
    requires { split.at <ℤ (box_in spot.now split.quantity).high }
    ensures { IfOk result (λ opened. all_valued (reverse opened.items) ≡ parts_opened spot.now split value) }
{
    let span = box_of(spot, split.quantity);
    let below = part(alloc, spot, split.quantity, low_of(span, split.at))?;
    let above = part(alloc, spot, split.quantity, high_of(span, split.at))?;
    both_open(alloc, below, above, value)
}

/// A node that splits the place, and opens both parts.
pub(crate) fn split_node(
    alloc: Global,
    task: &Task,
    known: Known,
    bound: i128,
    split: Split,
) -> Worked
    requires task { TaskFits task.now }
    requires known { IsPlaceProof task.now.model.now task.now.spot.now known }
    requires bound { IsOpenBound task.now known bound }
    requires split { SplitFits task.now.model.now task.now.spot.now split }
    ensures priced { IsPricedAt task.now result }
    ensures cut_off { HasCutOff task.now.model.now task.now.limit task.now.spot.now task.now.z
        → IsWorkedAt task.now result }
{
    let _z = task.z;
    match parts(alloc, task.spot, split, raised(task.value, bound)) {
        Err(_) => Worked::Memory,
        Ok(opened) => {
            let form = NodeForm::Split(split, Some(known.proof));
            Worked::Node(MadeNode { form, bound }, opened)
        }
    }
}
