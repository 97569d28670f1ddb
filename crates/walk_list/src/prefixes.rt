//! The prefixes of walks, and those that are demanded next.

ghost use Rattle.std.specs.Prelude.{◌≡◌, ◌↔◌, ℕ, ◌<◌, true, ◌||◌, IfSome, IsTrue, MatchOption, [], length, slice_index};
ghost use Rattle.path_graph.specs.Parts.{arc_at, arcs_from};
ghost use Rattle.path_graph.specs.SetBits.{has_set};
ghost use Rattle.path_graph.specs.Visits.{visit_over};
ghost use Rattle.ng_sets.specs.Memory.{is_visited};
ghost use Rattle.label_rules.specs.Joins.{JoinsWithin};
ghost use Rattle.label_rules.specs.Labels.{Forward as Ahead};
ghost use Rattle.label_rules.specs.Spaces.{extension, is_label, is_remembered};
ghost use Rattle.route_labels.specs.Fit.{FieldFits};
ghost use Rattle.route_labels.specs.Meaning.{setting_of};
ghost use Rattle.concatenate.specs.Fit.{MayJoin};
ghost use Rattle.list_check.specs.Heads.{label_at, places_at};
ghost use Rattle.list_check.specs.Prefixes.{IsPrefixLabel, JoinsOne};
ghost use Rattle.walk_list.specs.Prefixes.{IsWantedNext, IsWantedOf, LabelsFit, arc_after};
ghost use Rattle.walk_list.specs.Rests.{AreRests};

use concatenate::join_cost;
use label_space::Space;
use path_graph::{List, SetBits};
use route_labels::{Field, Forward, Label};

/// What is kept of a prefix: its label, and the packing sets that it visits.
#[derive(Clone, Copy)]
pub(crate) struct Prefix {
    pub label: Label,
    pub visited: SetBits,
}

/// The labels of rests that a prefix may join, the places of those at each vertex, and the most that a join may cost.
#[derive(Clone, Copy)]
pub(crate) struct Rests<'a> {
    pub labels: &'a [Label],
    pub heads: &'a List<List<usize>>,
    pub limit: i128,
}

/// The prefix without arcs.
pub(crate) fn empty_prefix(field: &Field) -> Prefix
    requires { FieldFits field.now }
    ensures { IsPrefixLabel (setting_of field.now) [] result.label result.visited }
{
    Prefix {
        label: Forward::new(*field, None).root(),
        visited: SetBits::empty(),
    }
}

/// The label over an arc out of its vertex, by the place of the arc among these.
fn label_over(field: &Field, label: &Label, place: u32) -> Option<Label>
    requires field { FieldFits field.now }
    requires label { is_label Ahead (setting_of field.now) label.now ≡ true }
    requires place { place < length (arcs_from (setting_of field.now).graph.arcs label.now.vertex) }
    ensures { result ≡ extension Ahead (setting_of field.now) None label.now
        (slice_index (arcs_from (setting_of field.now).graph.arcs label.now.vertex) place) }
{
    Forward::new(*field, None).extend(label, place)
}

/// Whether a set is visited.
fn is_visited_set(visited: &SetBits, set: Option<u16>) -> bool
    ensures { result ≡ is_remembered visited.now set }
{
    match set {
        None => false,
        Some(s) => visited.has(s),
    }
}

/// The sets that are visited after a vertex.
fn visited_with(visited: &SetBits, set: Option<u16>) -> SetBits
    requires { IfSome set (λ s. s < 512) }
    ensures { (t : ℕ) → has_set result t ≡ (has_set visited.now t || is_visited set t) }
{
    match set {
        None => *visited,
        Some(s) => visited.with(s),
    }
}

/// Whether two labels join over an arc at no more than the limit.
fn joins_within(field: &Field, label: &Label, arc: u32, rest: &Label, rests: &Rests) -> bool
    requires field { FieldFits field.now }
    requires front { MayJoin (setting_of field.now) label.now }
    requires rest { MayJoin (setting_of field.now) rest.now }
    requires arc { arc < length (setting_of field.now).graph.arcs }
    requires tail { (arc_at (setting_of field.now).graph.arcs arc).tail ≡ label.now.vertex }
    requires head { (arc_at (setting_of field.now).graph.arcs arc).head ≡ rest.now.vertex }
    ensures { IsTrue result ↔ JoinsWithin (setting_of field.now) label.now arc rest.now rests.now.limit }
{
    match join_cost(field, label, arc, rest) {
        None => false,
        Some(cost) => cost <= rests.limit,
    }
}

/// The label at a place.
fn rest_at<'a>(rests: &Rests<'a>, place: usize) -> &'a Label
    requires { place < length rests.now.labels.now }
    ensures { result.now ≡ label_at rests.now.labels.now place }
{
    &rests.labels[place]
}

/// The places of the labels at the head of an arc.
fn places_over<'a>(field: &Field, arc: u32, rests: &Rests<'a>) -> &'a [usize]
    requires field { FieldFits field.now }
    requires rests { AreRests (setting_of field.now) rests.now }
    requires arc { arc < length (setting_of field.now).graph.arcs }
    ensures { result.now ≡ places_at rests.now.labels.now (arc_at (setting_of field.now).graph.arcs arc).head }
{
    let head = field.path_graph().arc(arc).head;
    let heads = rests.heads;
    heads.at(head as usize).as_slice()
}

/// Whether a label joins one of the rests over an arc.
fn joins_one(field: &Field, label: &Label, arc: u32, rests: &Rests) -> bool
    requires field { FieldFits field.now }
    requires front { MayJoin (setting_of field.now) label.now }
    requires rests { AreRests (setting_of field.now) rests.now }
    requires arc { arc < length (setting_of field.now).graph.arcs }
    requires tail { (arc_at (setting_of field.now).graph.arcs arc).tail ≡ label.now.vertex }
    ensures { IsTrue result ↔ JoinsOne (setting_of field.now) rests.now.labels.now rests.now.limit label.now arc }
{
    let places = places_over(field, arc, rests);
    for place in places {
        if joins_within(field, label, arc, rest_at(rests, *place), rests) {
            return true;
        }
    }
    false
}

/// The packing set of the vertex that an arc enters.
fn set_over(field: &Field, arc: u32) -> Option<u16>
    requires field { FieldFits field.now }
    requires arc { arc < length (setting_of field.now).graph.arcs }
    ensures set { result ≡ visit_over (setting_of field.now).graph arc }
    ensures small { IfSome result (λ s. s < 512) }
{
    let graph = field.path_graph();
    graph.vertex(graph.arc(arc).head).set
}

/// The prefix over the arc at a place among those out of the vertex: none exactly where the arc is not wanted.
pub(crate) fn wanted_prefix(
    field: &Field,
    prefix: &Prefix,
    place: u32,
    rests: &Rests,
) -> Option<Prefix>
    requires field { FieldFits field.now }
    requires label { LabelsFit (setting_of field.now) prefix.now }
    requires rests { AreRests (setting_of field.now) rests.now }
    requires place { place < length (arcs_from (setting_of field.now).graph.arcs prefix.now.label.vertex) }
    ensures { MatchOption result
        (¬ (IsWantedOf (setting_of field.now) rests.now.labels.now rests.now.limit prefix.now
        (arc_after (setting_of field.now) prefix.now place)))
        (IsWantedNext (setting_of field.now) rests.now.labels.now rests.now.limit prefix.now
        (arc_after (setting_of field.now) prefix.now place)) }
{
    let arc = field.path_graph().out_arc(prefix.label.vertex, place);
    let set = set_over(field, arc);
    if is_visited_set(&prefix.visited, set) {
        return None;
    }
    if !joins_one(field, &prefix.label, arc, rests) {
        return None;
    }
    match label_over(field, &prefix.label, place) {
        None => None,
        Some(label) => Some(Prefix {
            label,
            visited: visited_with(&prefix.visited, set),
        }),
    }
}
