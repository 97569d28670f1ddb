//! Which arcs are wanted at a node.

ghost use Rattle.std.specs.Prelude.{◌≡◌, ◌↔◌, ℕ, ◌<◌, true, All, IsTrue, Some, length, map, slice_index};
ghost use Rattle.std.specs.List.{range_with_len};
ghost use Rattle.path_graph.specs.Parts.{arc_at, arcs_from};
ghost use Rattle.label_rules.specs.Labels.{Forward as Ahead};
ghost use Rattle.label_rules.specs.Spaces.{is_label};
ghost use Rattle.route_labels.specs.Fit.{FieldFits};
ghost use Rattle.route_labels.specs.Meaning.{setting_of};
ghost use Rattle.concatenate.specs.Fit.{MayJoin};
ghost use Rattle.list_check.specs.Heads.{label_at, places_at};
ghost use Rattle.list_check.specs.Nodes.{IsWantedAt};
ghost use Rattle.label_rules.specs.Joins.{JoinsWithin};
ghost use Rattle.list_check.specs.Prefixes.{JoinsOne};
ghost use Rattle.list_check.specs.Rests.{AreRests};

use crate::nodes::{Node, node_over};
use concatenate::join_cost;
use path_graph::List;
use route_labels::{Field, Label};

/// Whether two labels join over an arc at no more than the limit.
fn joins_within(field: &Field, label: &Label, arc: u32, rest: &Label, rests: &Rests) -> bool
    requires field { FieldFits field.now }
    requires front { MayJoin (setting_of field.now) label.now }
    requires rest { MayJoin (setting_of field.now) rest.now }
    requires arc { arc < length (setting_of field.now).graph.arcs }
    requires tail { (arc_at (setting_of field.now).graph.arcs arc).tail ≡ label.now.vertex }
    requires head { (arc_at (setting_of field.now).graph.arcs arc).head ≡ rest.now.vertex }
    ensures { IsTrue result ↔ JoinsWithin (setting_of field.now) label.now arc rest.now rests.now.limit }
{
    match join_cost(field, label, arc, rest) {
        None => false,
        Some(cost) => cost <= rests.limit,
    }
}

/// The labels of rests that a prefix may join, the places of those at each vertex, and the most that a join may cost.
#[derive(Clone, Copy)]
pub(crate) struct Rests<'a> {
    pub labels: &'a [Label],
    pub heads: &'a List<List<usize>>,
    pub limit: i128,
}

/// The label at a place.
fn rest_at<'a>(rests: &Rests<'a>, place: usize) -> &'a Label
    requires { place < length rests.now.labels.now }
    ensures { result.now ≡ label_at rests.now.labels.now place }
{
    &rests.labels[place]
}

/// Whether a label joins one of the rests over an arc.
fn joins_one(field: &Field, label: &Label, arc: u32, places: &[usize], rests: &Rests) -> bool
    requires field { FieldFits field.now }
    requires front { MayJoin (setting_of field.now) label.now }
    requires rests { AreRests (setting_of field.now) rests.now }
    requires arc { arc < length (setting_of field.now).graph.arcs }
    requires tail { (arc_at (setting_of field.now).graph.arcs arc).tail ≡ label.now.vertex }
    requires places { places.now ≡ places_at rests.now.labels.now (arc_at (setting_of field.now).graph.arcs arc).head }
    ensures { IsTrue result ↔ JoinsOne (setting_of field.now) rests.now.labels.now rests.now.limit label.now arc }
{
    for place in places {
        if joins_within(field, label, arc, rest_at(rests, *place), rests) {
            return true;
        }
    }
    false
}

/// Whether the arc at a place among those out of a node's vertex is wanted there.
pub(crate) fn is_wanted(field: &Field, node: &Node, place: u32, rests: &Rests) -> bool
    requires field { FieldFits field.now }
    requires label { is_label Ahead (setting_of field.now) node.now.label ≡ true }
    requires front { MayJoin (setting_of field.now) node.now.label }
    requires rests { AreRests (setting_of field.now) rests.now }
    requires place { place < length (arcs_from (setting_of field.now).graph.arcs node.now.label.vertex) }
    ensures { IsTrue result ↔ IsWantedAt (setting_of field.now) rests.now.labels.now rests.now.limit node.now
        (slice_index (arcs_from (setting_of field.now).graph.arcs node.now.label.vertex) place) }
{
    match node_over(field, node, place) {
        None => false,
        Some(next) => {
            let arc = field.path_graph().out_arc(node.label.vertex, place);
            let places = rests.heads.at(next.label.vertex as usize);
            joins_one(field, &node.label, arc, places.as_slice(), rests)
        }
    }
}
