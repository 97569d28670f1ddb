ghost use Rattle.std.specs.Prelude.{◌≡◌, ℤ, Option, [], All, IfOk, None, Some, MatchResult};
ghost use Rattle.route_model.specs.Fit.{ModelFits};
ghost use Rattle.route_model.specs.Places.{SpotFits};
ghost use Rattle.cert_check.specs.Frames.{item_of};
ghost use Rattle.cert_check.specs.Reads.{IsRead, ItemFits, ReadsOn};
ghost use Rattle.certificate.specs.declared.cert.Proof.{Proof as TextProof};
ghost use Rattle.certificate.specs.CertText.{TrieFits};
ghost use Rattle.certificate.specs.Sizes.{sizes_of};
ghost use Rattle.multipliers.specs.Ranges.{MultFits};
ghost use Rattle.certificate.specs.CertFits.{NodeIsTold, ProofFits};
ghost use Rattle.cert_check.specs.Verdicts.{IsTreeError, IsTreeOf, error_at};

use crate::counts::close_counts;
use crate::fault::{CheckError, CheckFault, CheckKind, NodeError};
use crate::list::{first_boxes, list_walks};
use crate::moves::{drop_arcs, next, open_counts, split_count, split_place};
use crate::place::{has_parts, split_fits};
use crate::point::judge_point;
use crate::proof::{close_place, fix_arcs};
use crate::stack::{Open, Tree};
use certificate::{Node, NodeForm, Proof, Trie};
use multipliers::root_spot;
use path_graph::{List, NoMemory};
use route_model::{Model, Mult, Split};
use std::alloc::Global;

/// Reads a split.
fn read_split(model: &Model, tree: &mut Tree, split: &Split) -> Result<Option<Open>, NodeError>
    requires { SpotFits model.now tree.old.spot }
    ensures { (z : ℤ) (proof : Option TextProof) → ReadsOn model.now z tree.old Open.Place (NodeForm.Split split.now proof) tree.new result }
{
    if !split_fits(model, &tree.spot, split) {
        return Err(NodeError::Fault(CheckKind::Split));
    }
    split_place(tree, split)?;
    Ok(Some(Open::Place))
}

/// Reads a node that closes the place.
fn read_close(
    alloc: Global,
    model: &Model,
    z: i64,
    tree: &mut Tree,
    proof: &Proof,
) -> Result<Option<Open>, NodeError>
    requires fits { SpotFits model.now tree.old.spot }
    requires told { ProofFits model.now proof.now }
    ensures { ReadsOn model.now z tree.old Open.Place (NodeForm.Close proof.now) tree.new result }
{
    close_place(alloc, model, z, &tree.spot, proof)?;
    Ok(next(tree)?)
}

/// Reads a node that drops arcs.
fn read_fix(
    alloc: Global,
    model: &Model,
    z: i64,
    tree: &mut Tree,
    proof: &Proof,
    arcs: &List<(u32, u32)>,
) -> Result<Option<Open>, NodeError>
    requires fits { SpotFits model.now tree.old.spot }
    requires told { ProofFits model.now proof.now }
    ensures { ReadsOn model.now z tree.old Open.Place (NodeForm.Fix proof.now arcs.now) tree.new result }
{
    fix_arcs(alloc, model, z, &tree.spot, proof, arcs.as_slice())?;
    drop_arcs(tree, arcs.as_slice())?;
    Ok(Some(Open::Place))
}

/// Reads a node that lists walks.
fn read_list(
    alloc: Global,
    model: &Model,
    z: i64,
    tree: &mut Tree,
    proof: &Proof,
    tries: &List<Trie>,
) -> Result<Option<Open>, NodeError>
    requires fits { SpotFits model.now tree.old.spot }
    requires told { ProofFits model.now proof.now }
    requires tries { All (TrieFits (sizes_of model.now)) tries.now }
    ensures { ReadsOn model.now z tree.old Open.Place (NodeForm.List proof.now tries.now) tree.new result }
{
    let walks = list_walks(alloc, model, z, &tree.spot, proof, tries.as_slice())?;
    let boxes = first_boxes(alloc, &tree.spot, walks.as_slice())?;
    open_counts(tree, walks, boxes)?;
    Ok(Some(Open::Counts))
}

/// Reads a node at the place.
fn read_place(
    alloc: Global,
    model: &Model,
    z: i64,
    tree: &mut Tree,
    form: &NodeForm,
) -> Result<Option<Open>, NodeError>
    requires fits { SpotFits model.now tree.old.spot }
    requires told { NodeIsTold model.now form.now }
    ensures { ReadsOn model.now z tree.old Open.Place form.now tree.new result }
{
    match form {
        NodeForm::Split(split, _) => read_split(model, tree, split),
        NodeForm::Close(proof) => read_close(alloc, model, z, tree, proof),
        NodeForm::Fix(proof, arcs) => read_fix(alloc, model, z, tree, proof, arcs),
        NodeForm::List(proof, tries) => read_list(alloc, model, z, tree, proof, tries),
        _ => Err(NodeError::Fault(CheckKind::Split)),
    }
}

/// Reads a split of a count.
fn read_count_split(
    model: &Model,
    tree: &mut Tree,
    walk: u32,
    at: i64,
) -> Result<Option<Open>, NodeError>
    ensures { (z : ℤ) → ReadsOn model.now z tree.old Open.Counts (NodeForm.CountSplit walk at) tree.new result }
{
    if !has_parts(tree.boxes.as_slice(), walk, at) {
        return Err(NodeError::Fault(CheckKind::Split));
    }
    split_count(tree, walk, at)?;
    Ok(Some(Open::Counts))
}

/// Reads a node that closes the counts.
fn read_count_close(
    alloc: Global,
    model: &Model,
    z: i64,
    tree: &mut Tree,
    mult: &Mult,
) -> Result<Option<Open>, NodeError>
    requires fits { ItemFits model.now (item_of tree.old Open.Counts) }
    requires told { MultFits model.now mult.now }
    requires none { mult.now.cuts ≡ [] }
    ensures { ReadsOn model.now z tree.old Open.Counts (NodeForm.CountClose mult.now) tree.new result }
{
    close_counts(alloc, model, z, tree, mult)?;
    Ok(next(tree)?)
}

/// Reads a point.
fn read_point(
    alloc: Global,
    model: &Model,
    z: i64,
    tree: &mut Tree,
) -> Result<Option<Open>, NodeError>
    requires fits { ItemFits model.now (item_of tree.old Open.Counts) }
    ensures { ReadsOn model.now z tree.old Open.Counts NodeForm.Point tree.new result }
{
    judge_point(alloc, model, z, tree)?;
    Ok(next(tree)?)
}

/// Reads a node at counts.
fn read_counts(
    alloc: Global,
    model: &Model,
    z: i64,
    tree: &mut Tree,
    form: &NodeForm,
) -> Result<Option<Open>, NodeError>
    requires fits { ItemFits model.now (item_of tree.old Open.Counts) }
    requires told { NodeIsTold model.now form.now }
    ensures { ReadsOn model.now z tree.old Open.Counts form.now tree.new result }
{
    match form {
        NodeForm::CountSplit(walk, at) => read_count_split(model, tree, *walk, *at),
        NodeForm::CountClose(mult) => read_count_close(alloc, model, z, tree, mult),
        NodeForm::Point => read_point(alloc, model, z, tree),
        _ => Err(NodeError::Fault(CheckKind::Split)),
    }
}

/// Reads a node at the item that is open, and tells what is open next.
fn read_node(
    alloc: Global,
    model: &Model,
    z: i64,
    tree: &mut Tree,
    at: Open,
    form: &NodeForm,
) -> Result<Option<Open>, NodeError>
    requires fits { ItemFits model.now (item_of tree.old at) }
    requires told { NodeIsTold model.now form.now }
    ensures { ReadsOn model.now z tree.old at form.now tree.new result }
{
    match at {
        Open::Place => read_place(alloc, model, z, tree, form),
        Open::Counts => read_counts(alloc, model, z, tree, form),
    }
}

/// A tree of which nothing is read: the root place is open.
fn unread(alloc: Global, model: &Model) -> Result<Tree, NoMemory>
    ensures read { IfOk result (λ tree. (z : ℤ) → IsRead model.now z [] (Some Open.Place) tree) }
    ensures fits { ModelFits model.now }
{
    let _graphs = model.graphs.len();
    let spot = root_spot(alloc, model)?;
    Ok(Tree {
        spot,
        walks: List::new(alloc),
        boxes: List::new(alloc),
        frames: List::new(alloc),
    })
}

/// What is wrong at a node, with its line.
fn at_line(line: u32, error: NodeError) -> CheckError
    ensures { result ≡ error_at line error }
{
    match error {
        NodeError::Fault(kind) => CheckError::Refused(CheckFault { line, kind }),
        NodeError::Memory => CheckError::Memory,
    }
}

/// Reads nodes as a proof tree against z, up to its first fault.
///
/// It goes on without recursion, and takes memory linear in the nodes and in the walks of one list.
pub(crate) fn read_tree(
    alloc: Global,
    model: &Model,
    z: i64,
    nodes: &[Node],
    end: u32,
) -> Result<(), CheckError>
    requires { All (λ n. NodeIsTold model.now n.form) nodes.now }
    ensures { MatchResult result (λ _. IsTreeOf model.now z nodes.now) (IsTreeError model.now z nodes.now end) }
{
    let mut tree = unread(alloc, model)?;
    let mut left = Some(Open::Place);
    for node in nodes {
        let Some(at) = left else {
            return Err(at_line(node.line, NodeError::Fault(CheckKind::Tail)));
        };
        match read_node(alloc, model, z, &mut tree, at, &node.form) {
            Ok(next) => left = next,
            Err(error) => return Err(at_line(node.line, error)),
        }
    }
    match left {
        None => Ok(()),
        Some(_) => Err(at_line(end, NodeError::Fault(CheckKind::Tail))),
    }
}
