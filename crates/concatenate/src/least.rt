ghost use Rattle.std.specs.Prelude.{◌≡◌, ◌↔◌, ◌<◌, false, All, IsTrue, length, Some};
ghost use Rattle.path_graph.specs.Walk.{arc_at};
ghost use Rattle.label_rules.specs.Leasts.{AreAllAbove};
ghost use Rattle.route_labels.specs.Fit.{FieldFits, PartsAgree};
ghost use Rattle.route_labels.specs.Meaning.{setting_of};
ghost use Rattle.concatenate.specs.Costs.{BoundsWalks, IsCostOver, IsCostWith, IsJoinCost, IsLeastWith, lesser_of};
ghost use Rattle.concatenate.specs.Fit.{MayJoin};

use crate::joins::cost_over;
use crate::lists::part_at;
use path_graph::Graph;
use route_labels::{Field, Label};

/// The least cost of a join of a forward and a backward label, over all arcs; none exactly where no labels join.
///
/// The arcs are taken one by one, and pairs are looked at only at the ends of an arc: the time grows as the number of such
/// pairs, and for each arc with the labels of the lists. It takes no memory. The lists need not be ordered; the labels of one
/// vertex should stand together.
pub fn least_join(field: &Field, fore: &[Label], back: &[Label]) -> Option<i128>
    requires field { FieldFits field.now }
    requires fore { All (MayJoin (setting_of field.now)) fore.now }
    requires back { All (MayJoin (setting_of field.now)) back.now }
    ensures least { IsLeastWith (IsJoinCost (setting_of field.now) fore.now back.now) result }
    ensures walks { BoundsWalks (setting_of field.now) fore.now back.now result }
{
    let graph = field.path_graph();
    let mut least = None;
    for arc in 0..graph.arc_count() {
        least = lesser(least, least_over(field, graph, fore, arc, back));
    }
    least
}

/// Whether each join of a forward and a backward label over an arc costs more than a limit; so it is where none join.
pub fn all_joins_above(field: &Field, fore: &[Label], arc: u32, back: &[Label], limit: i128) -> bool
    requires field { FieldFits field.now }
    requires fore { All (MayJoin (setting_of field.now)) fore.now }
    requires back { All (MayJoin (setting_of field.now)) back.now }
    requires arc { arc < length (setting_of field.now).graph.arcs }
    ensures { IsTrue result ↔ AreAllAbove (setting_of field.now) fore.now back.now (Some limit) arc }
{
    match least_over(field, field.path_graph(), fore, arc, back) {
        None => true,
        Some(least) => limit < least,
    }
}

/// The lesser of two costs that may be missing.
fn lesser(x: Option<i128>, y: Option<i128>) -> Option<i128>
    ensures { result ≡ lesser_of x y }
{
    match (x, y) {
        (None, y) => y,
        (Some(x), None) => Some(x),
        (Some(x), Some(y)) => Some(if x <= y { x } else { y }),
    }
}

/// The least cost of a join over an arc.
fn least_over(
    field: &Field,
    graph: &Graph,
    fore: &[Label],
    arc: u32,
    back: &[Label],
) -> Option<i128>
    requires agree { PartsAgree field.now }
    requires graph { graph.now ≡ (setting_of field.now).graph }
    requires fore { All (MayJoin (setting_of field.now)) fore.now }
    requires back { All (MayJoin (setting_of field.now)) back.now }
    requires arc { arc < length (setting_of field.now).graph.arcs }
    ensures { IsLeastWith (IsCostOver (setting_of field.now) fore.now back.now arc) result }
{
    if field.is_shut(arc) {
        return None;
    }
    let ends = graph.arc(arc);
    least_among(
        field,
        graph,
        part_at(fore, ends.tail),
        arc,
        part_at(back, ends.head),
    )
}

/// The least cost of a join over an open arc.
fn least_among(
    field: &Field,
    graph: &Graph,
    fore: &[Label],
    arc: u32,
    back: &[Label],
) -> Option<i128>
    requires agree { PartsAgree field.now }
    requires graph { graph.now ≡ (setting_of field.now).graph }
    requires open_arc { (setting_of field.now).is_shut arc ≡ false }
    requires fore { All (MayJoin (setting_of field.now)) fore.now }
    requires back { All (MayJoin (setting_of field.now)) back.now }
    requires arc { arc < length (setting_of field.now).graph.arcs }
    ensures { IsLeastWith (IsCostOver (setting_of field.now) fore.now back.now arc) result }
{
    let tail = graph.arc(arc).tail;
    let mut least = None;
    for f in fore {
        if f.vertex == tail {
            least = lesser(least, least_with(field, graph, f, arc, back));
        }
    }
    least
}

/// The least cost of a join of a label with one of a list, over an open arc out of the label's vertex.
fn least_with(field: &Field, graph: &Graph, f: &Label, arc: u32, back: &[Label]) -> Option<i128>
    requires agree { PartsAgree field.now }
    requires graph { graph.now ≡ (setting_of field.now).graph }
    requires open_arc { (setting_of field.now).is_shut arc ≡ false }
    requires front { MayJoin (setting_of field.now) f.now }
    requires back { All (MayJoin (setting_of field.now)) back.now }
    requires arc { arc < length (setting_of field.now).graph.arcs }
    requires tail { (arc_at (setting_of field.now).graph.arcs arc).tail ≡ f.now.vertex }
    ensures { IsLeastWith (IsCostWith (setting_of field.now) f.now arc back.now) result }
{
    let head = graph.arc(arc).head;
    let mut least = None;
    for b in back {
        if b.vertex == head {
            least = lesser(least, cost_over(field, graph, f, arc, b));
        }
    }
    least
}
