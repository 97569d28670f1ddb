//! Whether a tree is complete.

ghost use Rattle.std.specs.Prelude.{◌≡◌, ◌↔◌, ℕ, ◌<◌, ◌≤◌, ◌^◌, All, IfOk, IsTrue, length, slice_index};
ghost use Rattle.path_graph.specs.Parts.{arcs_from};
ghost use Rattle.route_model.specs.Fit.{ModelFits};
ghost use Rattle.proof_rules.specs.PrefixTrees.{IsComplete};
ghost use Rattle.route_labels.specs.Fit.{FieldFits};
ghost use Rattle.route_labels.specs.Meaning.{setting_of};
ghost use Rattle.concatenate.specs.Fit.{MayJoin};
ghost use Rattle.cert_rules.specs.Meaning.{steps_of};
ghost use Rattle.list_check.specs.Lines.{has_line as has_line_of};
ghost use Rattle.list_check.specs.Nodes.{HasStep, HaveSteps, IsWantedAt, LabelsFit};
ghost use Rattle.list_check.specs.Rests.{AreRests};

use crate::heads::heads_of;
use crate::joining::{Rests, is_wanted};
use crate::lines::{Lines, has_line, lines_of};
use crate::nodes::{Node, tree_nodes};
use certificate::Trie;
use path_graph::NoMemory;
use route_labels::{Field, Label};
use std::alloc::Global;

/// Whether the steps of a prefix tree are complete: each parent is an earlier node, no two steps are equal, each prefix is a
/// feasible partial walk over open arcs that visits no packing set twice, and at each node but at the sink each demanded arc
/// leads to a child.
///
/// An arc is demanded where it goes on so and the label of the prefix joins, over it, one of the backward labels at a cost of
/// at most the limit; without a limit none is. The time is that of the nodes, each with the arcs out of its vertex, and for
/// each arc without a child that of the backward labels at its head; two steps are compared by a map.
pub fn is_complete(
    alloc: Global,
    field: &Field,
    back: &[Label],
    limit: Option<i128>,
    trie: &Trie,
) -> Result<bool, NoMemory>
    requires field { FieldFits field.now }
    requires back { All (MayJoin (setting_of field.now)) back.now }
    requires few { length trie.now.steps < 2 ^ 32 }
    ensures { IfOk result (λ complete. IsTrue complete ↔ IsComplete (setting_of field.now) back.now limit (steps_of trie.now)) }
{
    let steps = trie.steps.as_slice();
    let Some(lines) = lines_of(alloc, steps)? else {
        return Ok(false);
    };
    let Some(nodes) = tree_nodes(alloc, field, steps)? else {
        return Ok(false);
    };
    let Some(limit) = limit else {
        return Ok(true);
    };
    let count = vertex_count(field);
    let complete = have_steps(alloc, field, count, back, limit, &lines, nodes.as_slice())?;
    Ok(complete)
}

/// How many vertices the graph has.
fn vertex_count(field: &Field) -> u32
    requires { FieldFits field.now }
    ensures count { result ≡ length (setting_of field.now).graph.vertices }
    ensures model { ModelFits field.now.model.now }
{
    let model = field.model;
    model.graphs.at(field.graph as usize).vertex_count()
}

/// Whether each wanted arc of each node has its line.
fn have_steps(
    alloc: Global,
    field: &Field,
    count: u32,
    back: &[Label],
    limit: i128,
    lines: &Lines,
    nodes: &[Node],
) -> Result<bool, NoMemory>
    requires field { FieldFits field.now }
    requires count { count ≡ length (setting_of field.now).graph.vertices }
    requires back { All (MayJoin (setting_of field.now)) back.now }
    requires labels { All (LabelsFit (setting_of field.now)) nodes.now }
    requires few { length nodes.now ≤ 2 ^ 32 }
    ensures { IfOk result (λ all. IsTrue all ↔ HaveSteps (setting_of field.now) back.now limit lines.now nodes.now) }
{
    let heads = heads_of(alloc, count as usize, back)?;
    let rests = Rests {
        labels: back,
        heads: &heads,
        limit,
    };
    Ok(all_have_steps(field, lines, nodes, &rests))
}

/// The same, with the rests by vertices.
fn all_have_steps(field: &Field, lines: &Lines, nodes: &[Node], rests: &Rests) -> bool
    requires field { FieldFits field.now }
    requires labels { All (LabelsFit (setting_of field.now)) nodes.now }
    requires rests { AreRests (setting_of field.now) rests.now }
    requires few { length nodes.now ≤ 2 ^ 32 }
    ensures { IsTrue result ↔ HaveSteps (setting_of field.now) rests.now.labels.now rests.now.limit lines.now nodes.now }
{
    for (number, node) in nodes.iter().enumerate() {
        if !has_steps(field, lines, number as u32, node, rests) {
            return false;
        }
    }
    true
}

/// Whether each wanted arc of a node has its line.
fn has_steps(field: &Field, lines: &Lines, number: u32, node: &Node, rests: &Rests) -> bool
    requires field { FieldFits field.now }
    requires label { LabelsFit (setting_of field.now) node.now }
    requires rests { AreRests (setting_of field.now) rests.now }
    ensures { IsTrue result ↔ ((a : ℕ) → IsWantedAt (setting_of field.now) rests.now.labels.now rests.now.limit node.now a
        → IsTrue (has_line_of lines.now number a)) }
{
    for place in 0..field.path_graph().out_count(node.label.vertex) {
        if !has_step(field, lines, number, node, place, rests) {
            return false;
        }
    }
    true
}

/// Whether the arc at a place has its line, where it is wanted.
fn has_step(
    field: &Field,
    lines: &Lines,
    number: u32,
    node: &Node,
    place: u32,
    rests: &Rests,
) -> bool
    requires field { FieldFits field.now }
    requires label { LabelsFit (setting_of field.now) node.now }
    requires rests { AreRests (setting_of field.now) rests.now }
    requires place { place < length (arcs_from (setting_of field.now).graph.arcs node.now.label.vertex) }
    ensures { IsTrue result ↔ HasStep (setting_of field.now) rests.now.labels.now rests.now.limit lines.now number node.now
        (slice_index (arcs_from (setting_of field.now).graph.arcs node.now.label.vertex) place) }
{
    let arc = field.path_graph().out_arc(node.label.vertex, place);
    if has_line(lines, number, arc) {
        return true;
    }
    !is_wanted(field, node, place, rests)
}
