//! A tree grows node by node.

ghost use Rattle.std.specs.Prelude.{◌≡◌, ◌+◌, ◌<◌, ◌≤◌, ◌∷◌, ◌++◌, [], ℤ, All, IfOk, OnOk, Some, List, length, map, vec_len};
ghost use Rattle.std.specs.Bool.{OnTrue, OnFalse};
ghost use Rattle.path_graph.specs.Parts.{arcs_from};
ghost use Rattle.route_model.specs.Fit.{ModelFits};
ghost use Rattle.label_rules.specs.declared.label.Label.{Label};
ghost use Rattle.route_labels.specs.Fit.{FieldFits};
ghost use Rattle.route_labels.specs.Meaning.{setting_of};
ghost use Rattle.concatenate.specs.Fit.{MayJoin};
ghost use Rattle.cert_rules.specs.Meaning.{step_of};
ghost use Rattle.walk_list.specs.Growing.{IsDoneBelow, IsFull, IsGrowingAt, IsWhole};
ghost use Rattle.walk_list.specs.Prefixes.{LabelsFit};
ghost use Rattle.walk_list.specs.Rests.{AreRests};

use crate::heads::heads_of;
use crate::prefixes::{Prefix, Rests, empty_prefix, wanted_prefix};
use certificate::Step;
use path_graph::{List, NoMemory};
use route_labels::{Field, Label};
use std::alloc::Global;

/// The steps of a tree and the prefixes of its nodes.
#[derive(Drop)]
pub(crate) struct Growth {
    pub steps: Vec<Step>,
    pub prefixes: Vec<Prefix>,
}

/// Puts a step and the prefix of its node.
fn put(growth: &mut Growth, step: Step, next: Prefix) -> Result<(), NoMemory>
    ensures steps { OnOk result (growth.new.steps.items ≡ growth.old.steps.items ++ step ∷ []) }
    ensures prefixes { OnOk result (growth.new.prefixes.items ≡ growth.old.prefixes.items ++ next ∷ []) }
{
    growth.steps.push(step)?;
    growth.prefixes.push(next)?;
    Ok(())
}

/// Looks at one arc out of a node, and puts its step where it is wanted; false where there is no room for it.
fn grow_arc(
    field: &Field,
    growth: &mut Growth,
    number: u32,
    node: &Prefix,
    place: u32,
    rests: &Rests,
    room: u32,
) -> Result<bool, NoMemory>
    requires field { FieldFits field.now }
    requires label { LabelsFit (setting_of field.now) node.now }
    requires rests { AreRests (setting_of field.now) rests.now }
    requires place { place < length (arcs_from (setting_of field.now).graph.arcs node.now.label.vertex) }
    requires growing { IsGrowingAt (setting_of field.now) rests.now.labels.now rests.now.limit
        (map step_of growth.old.steps.items) growth.old.prefixes.items number node.now place }
    requires room { vec_len growth.old.steps ≤ room }
    ensures more { IfOk result (λ more. OnTrue more (IsGrowingAt (setting_of field.now) rests.now.labels.now rests.now.limit
        (map step_of growth.new.steps.items) growth.new.prefixes.items number node.now (place + 1))) }
    ensures room { IfOk result (λ more. OnTrue more (vec_len growth.new.steps ≤ room)) }
    ensures full { IfOk result (λ more. OnFalse more (IsFull (setting_of field.now) rests.now.labels.now (Some rests.now.limit) room
        (map step_of growth.new.steps.items))) }
{
    let arc = field.path_graph().out_arc(node.label.vertex, place);
    match wanted_prefix(field, node, place, rests) {
        None => Ok(true),
        Some(next) => {
            if growth.steps.len() == room as usize {
                return Ok(false);
            }
            let step = Step {
                parent: number,
                arc,
            };
            put(growth, step, next)?;
            Ok(true)
        }
    }
}

/// Looks at the arcs out of a node; false where there is no room for a step.
fn grow_node(
    field: &Field,
    growth: &mut Growth,
    number: u32,
    rests: &Rests,
    room: u32,
) -> Result<bool, NoMemory>
    requires field { FieldFits field.now }
    requires rests { AreRests (setting_of field.now) rests.now }
    requires number { number < vec_len growth.old.prefixes }
    requires model { ModelFits field.now.model.now }
    requires done { IsDoneBelow (setting_of field.now) rests.now.labels.now rests.now.limit
        (map step_of growth.old.steps.items) growth.old.prefixes.items number }
    requires room { vec_len growth.old.steps ≤ room }
    ensures more { IfOk result (λ more. OnTrue more (IsDoneBelow (setting_of field.now) rests.now.labels.now rests.now.limit
        (map step_of growth.new.steps.items) growth.new.prefixes.items (number + 1))) }
    ensures room { IfOk result (λ more. OnTrue more (vec_len growth.new.steps ≤ room)) }
    ensures full { IfOk result (λ more. OnFalse more (IsFull (setting_of field.now) rests.now.labels.now (Some rests.now.limit) room
        (map step_of growth.new.steps.items))) }
{
    let node = growth.prefixes[number as usize];
    for place in 0..field.path_graph().out_count(node.label.vertex) {
        if !grow_arc(field, growth, number, &node, place, rests, room)? {
            return Ok(false);
        }
    }
    Ok(true)
}

/// Grows a tree until it is whole or there is no room for a step, and tells which.
fn grow_all(field: &Field, growth: &mut Growth, rests: &Rests, room: u32) -> Result<bool, NoMemory>
    requires field { FieldFits field.now }
    requires rests { AreRests (setting_of field.now) rests.now }
    requires model { ModelFits field.now.model.now }
    requires done { IsDoneBelow (setting_of field.now) rests.now.labels.now rests.now.limit
        (map step_of growth.old.steps.items) growth.old.prefixes.items 0 }
    requires room { vec_len growth.old.steps ≤ room }
    ensures whole { IfOk result (λ whole. OnTrue whole (IsWhole (setting_of field.now) rests.now.labels.now (Some rests.now.limit)
        (map step_of growth.new.steps.items))) }
    ensures room { IfOk result (λ whole. OnTrue whole (vec_len growth.new.steps ≤ room)) }
    ensures full { IfOk result (λ whole. OnFalse whole (IsFull (setting_of field.now) rests.now.labels.now (Some rests.now.limit) room
        (map step_of growth.new.steps.items))) }
{
    let mut number = 0;
    while number < growth.prefixes.len() {
        if !grow_node(field, growth, number as u32, rests, room)? {
            return Ok(false);
        }
        number += 1;
    }
    Ok(true)
}

/// The tree of a graph, and whether it is whole; where it is not, it has as many lines as there is room for.
///
/// It is made breadth first. The time is that of the nodes, each with the arcs out of its vertex, and for each arc that of the
/// labels of rests at its head.
pub(crate) fn grow_tree(
    alloc: Global,
    field: &Field,
    back: &[Label],
    limit: Option<i128>,
    room: u32,
) -> Result<(List<Step>, bool), NoMemory>
    requires field { FieldFits field.now }
    requires back { All (MayJoin (setting_of field.now)) back.now }
    ensures whole { IfOk result (λ made. OnTrue made.1 (IsWhole (setting_of field.now) back.now limit (map step_of made.0))) }
    ensures room { IfOk result (λ made. OnTrue made.1 (length made.0 ≤ room)) }
    ensures full { IfOk result (λ made. OnFalse made.1 (IsFull (setting_of field.now) back.now limit room (map step_of made.0))) }
{
    match limit {
        None => Ok((List::new(alloc), true)),
        Some(limit) => grow_within(alloc, field, back, limit, room),
    }
}

/// The same with a limit.
fn grow_within(
    alloc: Global,
    field: &Field,
    back: &[Label],
    limit: i128,
    room: u32,
) -> Result<(List<Step>, bool), NoMemory>
    requires field { FieldFits field.now }
    requires back { All (MayJoin (setting_of field.now)) back.now }
    ensures whole { IfOk result (λ made. OnTrue made.1 (IsWhole (setting_of field.now) back.now (Some limit) (map step_of made.0))) }
    ensures room { IfOk result (λ made. OnTrue made.1 (length made.0 ≤ room)) }
    ensures full { IfOk result (λ made. OnFalse made.1 (IsFull (setting_of field.now) back.now (Some limit) room (map step_of made.0))) }
{
    let heads = heads_of(alloc, vertex_count(field) as usize, back)?;
    let rests = Rests {
        labels: back,
        heads: &heads,
        limit,
    };
    let mut growth = first_growth(alloc, field)?;
    let whole = grow_all(field, &mut growth, &rests, room)?;
    let Growth { steps, prefixes: _ } = growth;
    Ok((List::from_vec(steps), whole))
}

/// How many vertices the graph has.
fn vertex_count(field: &Field) -> u32
    requires { FieldFits field.now }
    ensures count { result ≡ length (setting_of field.now).graph.vertices }
    ensures model { ModelFits field.now.model.now }
{
    let model = field.model;
    model.graphs.at(field.graph as usize).vertex_count()
}

/// The tree without steps.
fn first_growth(alloc: Global, field: &Field) -> Result<Growth, NoMemory>
    requires { FieldFits field.now }
    ensures steps { IfOk result (λ growth. growth.steps.items ≡ []) }
    ensures done { (back : List Label) (limit : ℤ) → IfOk result (λ growth. IsDoneBelow (setting_of field.now) back limit
        (map step_of growth.steps.items) growth.prefixes.items 0) }
{
    Ok(Growth {
        steps: Vec::new(alloc),
        prefixes: vec![in alloc; empty_prefix(field)]?,
    })
}
