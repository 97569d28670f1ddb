ghost use Rattle.std.specs.Prelude.{◌≡◌, ◌↔◌, ◌<◌, ◌++◌, ◌^◌, IfOk, IsTrue, MatchOption, MatchResult, All, OnOk, length, map};
ghost use Rattle.std.specs.List.{range_with_len};
ghost use Rattle.route_model.specs.Places.{SpotFits};
ghost use Rattle.proof_rules.specs.Nodes.{AtPlace, first_boxes as boxes_at, walks_in};
ghost use Rattle.proof_rules.specs.PrefixTrees.{IsComplete, walks_of as walks_in_tree};
ghost use Rattle.proof_rules.specs.Proofs.{AreBoth};
ghost use Rattle.certificate.specs.CertText.{TrieFits};
ghost use Rattle.certificate.specs.Sizes.{sizes_of};
ghost use Rattle.cert_rules.specs.Meaning.{steps_of};
ghost use Rattle.proof_check.specs.Checked.{IsProved, limit_in, proof_in, setting_in, table_in};
ghost use Rattle.cert_check.specs.Faults.{AreNamed};
ghost use Rattle.cert_check.specs.Frames.{walks_said};
ghost use Rattle.cert_check.specs.Lists.{AreListedBy, ListsWalks, trie_at};
ghost use Rattle.cert_check.specs.Reads.{IsNodeError};
ghost use Rattle.certificate.specs.CertFits.{ProofFits};
ghost use Rattle.proof_rules.specs.Nodes.{first_box as box_for};
ghost use Rattle.cert_check.specs.Frames.{walk_said};

use crate::fault::{CheckKind, NodeError};
use crate::place::span_of;
use crate::proof::checked_proof;
use crate::stack::Listed;
use certificate::{NodeForm, Proof, Trie};
use list_check::{is_complete, walks_of};
use path_graph::{List, NoMemory};
use proof_check::{Proved, back_labels, limit_at};
use route_model::{Model, Span, Spot};
use std::alloc::Global;

/// Whether a tree is named by its place.
fn is_named(tries: &[Trie], g: usize) -> bool
    requires { g < length tries.now }
    ensures { IsTrue result ↔ ((trie_at tries.now g).graph ≡ g) }
{
    tries[g].graph as usize == g
}

/// Whether so many trees are named in order.
fn are_in_order(tries: &[Trie], count: usize) -> bool
    ensures { IsTrue result ↔ (map (λ t. t.graph) tries.now ≡ range_with_len 0 count) }
{
    if tries.len() != count {
        return false;
    }
    for g in 0..count {
        if !is_named(tries, g) {
            return false;
        }
    }
    true
}

/// Whether trees are named graph by graph in order.
fn are_named(model: &Model, tries: &[Trie]) -> bool
    ensures { IsTrue result ↔ AreNamed model.now tries.now }
{
    are_in_order(tries, model.graphs.len())
}

/// The walks of a tree, if it is complete.
fn tree_walks(
    alloc: Global,
    at: &Proved,
    g: u32,
    z: i64,
    trie: &Trie,
) -> Result<Option<List<List<u32>>>, NoMemory>
    requires proved { IsProved at.now }
    requires both { AreBoth at.now.model.now (proof_in at.now) }
    requires graph { g < length at.now.model.now.graphs }
    requires few { length trie.now.steps < 2 ^ 32 }
    ensures { IfOk result (λ found. MatchOption found
        (¬ (IsComplete (setting_in at.now g) (table_in at.now g).back (limit_in at.now z g) (steps_of trie.now)))
        (λ walks. IsComplete (setting_in at.now g) (table_in at.now g).back (limit_in at.now z g) (steps_of trie.now)
        × (walks ≡ walks_in_tree (setting_in at.now g) (steps_of trie.now)))) }
{
    let field = at.field(g);
    let limit = limit_at(at, g, z);
    if !is_complete(alloc, &field, back_labels(at, g), limit, trie)? {
        return Ok(None);
    }
    Ok(Some(walks_of(alloc, &field, trie)?))
}

/// Puts the walks of a graph behind those that are there.
fn add_walks(walks: &mut List<Listed>, g: u32, more: List<List<u32>>) -> Result<(), NoMemory>
    ensures { OnOk result (walks_said walks.new ≡ walks_said walks.old ++ walks_in g more) }
{
    for arcs in more.into_vec() {
        walks.push(Listed { graph: g, arcs })?;
    }
    Ok(())
}

/// The walks of all trees in order, if each is complete.
fn all_walks(
    alloc: Global,
    at: &Proved,
    z: i64,
    tries: &[Trie],
) -> Result<Option<List<Listed>>, NoMemory>
    requires proved { IsProved at.now }
    requires both { AreBoth at.now.model.now (proof_in at.now) }
    requires count { length tries.now ≡ length at.now.model.now.graphs }
    requires few { All (λ t. length t.steps < 2 ^ 32) tries.now }
    ensures { IfOk result (AreListedBy at.now z tries.now) }
{
    let mut walks = List::new(alloc);
    for (g, trie) in tries.iter().enumerate() {
        match tree_walks(alloc, at, g as u32, z, trie)? {
            None => return Ok(None),
            Some(more) => add_walks(&mut walks, g as u32, more)?,
        }
    }
    Ok(Some(walks))
}

/// Checks that a proof and its trees list walks, and gives these.
pub(crate) fn list_walks(
    alloc: Global,
    model: &Model,
    z: i64,
    spot: &Spot,
    proof: &Proof,
    tries: &[Trie],
) -> Result<List<Listed>, NodeError>
    requires fits { SpotFits model.now spot.now }
    requires told { ProofFits model.now proof.now }
    requires tries { All (TrieFits (sizes_of model.now)) tries.now }
    ensures { MatchResult result (ListsWalks model.now z spot.now proof.now tries.now)
        (IsNodeError model.now z (AtPlace spot.now) (NodeForm.List proof.now tries.now)) }
{
    let checked = match checked_proof(alloc, model, spot, proof, true) {
        Err(error) => return Err(error),
        Ok(checked) => checked,
    };
    if !are_named(model, tries) {
        return Err(NodeError::Fault(CheckKind::List));
    }
    let at = Proved {
        model,
        spot,
        proof,
        checked: &checked,
    };
    match all_walks(alloc, &at, z, tries) {
        Err(_) => Err(NodeError::Memory),
        Ok(None) => Err(NodeError::Fault(CheckKind::List)),
        Ok(Some(walks)) => Ok(walks),
    }
}

/// The box of the count of a walk at first.
fn first_box(spot: &Spot, walk: &Listed) -> Span
    ensures { result ≡ box_for spot.now (walk_said walk.now) }
{
    let span = span_of(spot.boxes.paths.as_slice(), walk.graph);
    Span {
        low: 0,
        high: span.high,
    }
}

/// The boxes of the counts of walks at first.
pub(crate) fn first_boxes(
    alloc: Global,
    spot: &Spot,
    walks: &[Listed],
) -> Result<List<Span>, NoMemory>
    ensures { IfOk result (λ boxes. boxes ≡ boxes_at spot.now (walks_said walks.now)) }
{
    let mut boxes = List::new(alloc);
    for walk in walks {
        boxes.push(first_box(spot, walk))?;
    }
    Ok(boxes)
}
