ghost use Rattle.std.specs.Prelude.{◌≡◌, ◌↔◌, ◌<◌, All, IsTrue, Some, length};
ghost use Rattle.path_graph.specs.Walk.{arc_at};
ghost use Rattle.label_rules.specs.Leasts.{AreAllAbove};
ghost use Rattle.route_labels.specs.Fit.{FieldFits};
ghost use Rattle.route_labels.specs.Meaning.{setting_of};
ghost use Rattle.concatenate.specs.Fit.{MayJoin};
ghost use Rattle.proof_check.specs.Index.{IsIndex, label_at};
ghost use Rattle.arc_fixing.specs.Pairs.{AreAboveFrom, IsPairAbove, IsRow};

use concatenate::join_cost;
use path_graph::List;
use route_labels::{Field, Label};

/// The labels of a list, with their places by vertex.
#[derive(Clone, Copy)]
pub(crate) struct Listed<'a> {
    pub(crate) labels: &'a [Label],
    pub(crate) index: &'a [List<usize>],
}

/// The labels of a list, with the places of those at a vertex.
#[derive(Clone, Copy)]
struct Row<'a> {
    labels: &'a [Label],
    places: &'a [usize],
}

/// The labels at a vertex.
fn row_at<'a>(listed: &Listed<'a>, vertex: u32) -> Row<'a>
    requires there { vertex < length listed.now.index.now }
    requires index { IsIndex listed.now.labels.now (length listed.now.index.now) listed.now.index.now }
    ensures labels { result.labels.now ≡ listed.now.labels.now }
    ensures row { IsRow listed.now.labels.now vertex result.places.now }
{
    let index = listed.index;
    Row {
        labels: listed.labels,
        places: index[vertex as usize].as_slice(),
    }
}

/// Whether each join over an arc costs more than a limit.
///
/// It looks at the pairs of labels at the ends of the arc, and ends at the first join within the limit.
pub(crate) fn are_above(field: &Field, fore: &Listed, arc: u32, back: &Listed, limit: i128) -> bool
    requires field { FieldFits field.now }
    requires fore { All (MayJoin (setting_of field.now)) fore.now.labels.now }
    requires back { All (MayJoin (setting_of field.now)) back.now.labels.now }
    requires fore_index { IsIndex fore.now.labels.now (length (setting_of field.now).graph.vertices) fore.now.index.now }
    requires back_index { IsIndex back.now.labels.now (length (setting_of field.now).graph.vertices) back.now.index.now }
    requires arc { arc < length (setting_of field.now).graph.arcs }
    ensures { IsTrue result ↔ AreAllAbove (setting_of field.now) fore.now.labels.now back.now.labels.now (Some limit) arc }
{
    let ends = field.path_graph().arc(arc);
    let starts = row_at(fore, ends.tail);
    let rests = row_at(back, ends.head);
    are_above_at(field, &starts, arc, &rests, limit)
}

/// Whether each join of labels at the tail of an arc with labels at its head costs more than a limit.
fn are_above_at(field: &Field, fore: &Row, arc: u32, back: &Row, limit: i128) -> bool
    requires field { FieldFits field.now }
    requires fore { All (MayJoin (setting_of field.now)) fore.now.labels.now }
    requires back { All (MayJoin (setting_of field.now)) back.now.labels.now }
    requires arc { arc < length (setting_of field.now).graph.arcs }
    requires starts { IsRow fore.now.labels.now (arc_at (setting_of field.now).graph.arcs arc).tail fore.now.places.now }
    requires rests { IsRow back.now.labels.now (arc_at (setting_of field.now).graph.arcs arc).head back.now.places.now }
    ensures { IsTrue result ↔ AreAllAbove (setting_of field.now) fore.now.labels.now back.now.labels.now (Some limit) arc }
{
    for place in fore.places {
        if !are_above_from(field, fore, *place, arc, back, limit) {
            return false;
        }
    }
    true
}

/// Whether each join of a label at the tail of an arc with labels at its head costs more than a limit.
fn are_above_from(
    field: &Field,
    fore: &Row,
    place: usize,
    arc: u32,
    back: &Row,
    limit: i128,
) -> bool
    requires field { FieldFits field.now }
    requires fore { All (MayJoin (setting_of field.now)) fore.now.labels.now }
    requires back { All (MayJoin (setting_of field.now)) back.now.labels.now }
    requires arc { arc < length (setting_of field.now).graph.arcs }
    requires place { place < length fore.now.labels.now }
    requires tail { (arc_at (setting_of field.now).graph.arcs arc).tail ≡ (label_at fore.now.labels.now place).vertex }
    requires rests { IsRow back.now.labels.now (arc_at (setting_of field.now).graph.arcs arc).head back.now.places.now }
    ensures { IsTrue result ↔ AreAboveFrom (setting_of field.now) (label_at fore.now.labels.now place) arc back.now.labels.now back.now.places.now limit }
{
    let front = &fore.labels[place];
    for rest in back.places {
        if !is_above(field, front, arc, &back.labels[*rest], limit) {
            return false;
        }
    }
    true
}

/// Whether two labels do not join over an arc, or at more than a limit.
fn is_above(field: &Field, f: &Label, arc: u32, b: &Label, limit: i128) -> bool
    requires field { FieldFits field.now }
    requires front { MayJoin (setting_of field.now) f.now }
    requires rest { MayJoin (setting_of field.now) b.now }
    requires arc { arc < length (setting_of field.now).graph.arcs }
    requires tail { (arc_at (setting_of field.now).graph.arcs arc).tail ≡ f.now.vertex }
    requires head { (arc_at (setting_of field.now).graph.arcs arc).head ≡ b.now.vertex }
    ensures { IsTrue result ↔ IsPairAbove (setting_of field.now) f.now arc b.now limit }
{
    match join_cost(field, f, arc, b) {
        None => true,
        Some(cost) => limit < cost,
    }
}
