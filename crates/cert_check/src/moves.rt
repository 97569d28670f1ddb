ghost use Rattle.std.specs.Prelude.{◌≡◌, ◌∷◌, ◌++◌, [], None, OnOk, IfOk, MatchOption, map, true};
ghost use Rattle.std.specs.Prelude.{◌<ℤ◌};
ghost use Rattle.route_model.specs.PlaceParts.{box_in, dropping, high_part, high_place, low_part, low_place};
ghost use Rattle.route_model.specs.Places.{span_at};
ghost use Rattle.proof_rules.specs.Nodes.{AtCounts, AtPlace};
ghost use Rattle.cert_check.specs.Frames.{Resumes, item_of, left_open, walks_said, with_mark};
ghost use Rattle.std.specs.Prelude.{slice_set};

use crate::place::{box_of, has_mark, high_of, low_of, put_box, put_mark, put_span, span_of};
use crate::stack::{Frame, Listed, Open, Tree};
use path_graph::{List, NoMemory};
use route_model::{Span, Split};
use std::mem;

/// Splits the place: the part of a box up to a number is read next, and the part above it waits.
pub(crate) fn split_place(tree: &mut Tree, split: &Split) -> Result<(), NoMemory>
    requires { split.now.at <ℤ (box_in tree.old.spot split.now.quantity).high }
    ensures { OnOk result (item_of tree.new Open.Place ∷ left_open tree.new
        ≡ AtPlace (low_place tree.old.spot split.now) ∷ AtPlace (high_place tree.old.spot split.now) ∷ left_open tree.old) }
{
    let span = box_of(&tree.spot, split.quantity);
    let part = high_of(span, split.at);
    tree.frames.push(Frame::Upper(split.quantity, span, part))?;
    put_box(&mut tree.spot, split.quantity, low_of(span, split.at));
    Ok(())
}

/// Splits the box of a count.
pub(crate) fn split_count(tree: &mut Tree, walk: u32, at: i64) -> Result<(), NoMemory>
    requires { at <ℤ (span_at tree.old.boxes walk).high }
    ensures { OnOk result (item_of tree.new Open.Counts ∷ left_open tree.new
        ≡ AtCounts tree.old.spot (walks_said tree.old.walks) (slice_set tree.old.boxes walk (low_part (span_at tree.old.boxes walk) at))
        ∷ AtCounts tree.old.spot (walks_said tree.old.walks) (slice_set tree.old.boxes walk (high_part (span_at tree.old.boxes walk) at))
        ∷ left_open tree.old) }
{
    let span = span_of(tree.boxes.as_slice(), walk);
    let part = high_of(span, at);
    tree.frames.push(Frame::UpperCount(walk, span, part))?;
    put_span(&mut tree.boxes, walk, low_of(span, at));
    Ok(())
}

/// Drops an arc; it comes back if it was there.
fn drop_arc(tree: &mut Tree, g: u32, a: u32) -> Result<(), NoMemory>
    ensures spot { OnOk result (tree.new.spot ≡ with_mark tree.old.spot g a true) }
    ensures left { OnOk result (left_open tree.new ≡ left_open tree.old) }
{
    if has_mark(&tree.spot, g, a) {
        return Ok(());
    }
    tree.frames.push(Frame::Dropped(g, a))?;
    put_mark(&mut tree.spot, g, a, true);
    Ok(())
}

/// Drops arcs, which may repeat.
pub(crate) fn drop_arcs(tree: &mut Tree, arcs: &[(u32, u32)]) -> Result<(), NoMemory>
    ensures { OnOk result (item_of tree.new Open.Place ∷ left_open tree.new
        ≡ AtPlace (dropping tree.old.spot arcs.now) ∷ left_open tree.old) }
{
    for arc in arcs {
        drop_arc(tree, arc.0, arc.1)?;
    }
    Ok(())
}

/// Opens the counts of walks in boxes.
pub(crate) fn open_counts(
    tree: &mut Tree,
    walks: List<Listed>,
    boxes: List<Span>,
) -> Result<(), NoMemory>
    ensures { OnOk result (item_of tree.new Open.Counts ∷ left_open tree.new
        ≡ AtCounts tree.old.spot (walks_said walks) boxes ∷ left_open tree.old) }
{
    let before = mem::replace(&mut tree.walks, walks);
    let spans = mem::replace(&mut tree.boxes, boxes);
    tree.frames.push(Frame::Listing(before, spans))
}

/// Goes on after a frame: brings back what it keeps, and tells what is open there.
fn resume(tree: &mut Tree, frame: Frame) -> Result<Option<Open>, NoMemory>
    ensures { IfOk result (λ kind. Resumes frame tree.old kind tree.new) }
{
    match frame {
        Frame::Upper(quantity, span, part) => {
            put_box(&mut tree.spot, quantity, part);
            tree.frames.push(Frame::Whole(quantity, span))?;
            Ok(Some(Open::Place))
        }
        Frame::Whole(quantity, span) => {
            put_box(&mut tree.spot, quantity, span);
            Ok(None)
        }
        Frame::Dropped(g, a) => {
            put_mark(&mut tree.spot, g, a, false);
            Ok(None)
        }
        Frame::UpperCount(walk, span, part) => {
            put_span(&mut tree.boxes, walk, part);
            tree.frames.push(Frame::WholeCount(walk, span))?;
            Ok(Some(Open::Counts))
        }
        Frame::WholeCount(walk, span) => {
            put_span(&mut tree.boxes, walk, span);
            Ok(None)
        }
        Frame::Listing(walks, boxes) => {
            tree.walks = walks;
            tree.boxes = boxes;
            Ok(None)
        }
    }
}

/// Goes on to the next open item, where one is left.
pub(crate) fn next(tree: &mut Tree) -> Result<Option<Open>, NoMemory>
    ensures { IfOk result (λ kind. MatchOption kind (left_open tree.old ≡ [])
        (λ k. left_open tree.old ≡ item_of tree.new k ∷ left_open tree.new)) }
{
    while let Some(frame) = tree.frames.pop() {
        if let Some(kind) = resume(tree, frame)? {
            return Ok(Some(kind));
        }
    }
    Ok(None)
}
