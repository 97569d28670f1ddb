ghost use Rattle.std.specs.Prelude.{◌≡◌, ◌++◌, map, slice_index, IfOk, OnOk};
ghost use Rattle.std.specs.List.{flat_map};
ghost use Rattle.certificate.specs.Sizes.{SizesFit};
ghost use Rattle.certificate.specs.Meaning.{values_of, mult_of, proof_of, arcs_of, form_of, node_of, nodes_from, cert_of};
ghost use Rattle.certificate.specs.Reading.{written_of};

use crate::cert::{Cert, Goal, Node, NodeForm, Proof};
use crate::draft::{CertDraft, CutLine, DropLine, Head, MultKind, MultLine, NodeDraft};
use crate::proof_words::{kind_count, rank};
use crate::sizes::Sizes;
use path_graph::{List, NoMemory};
use rank1_cuts::Cut;
use route_model::Mult;
use std::alloc::Global;

/// The multipliers of a kind: 0 where no line names the number.
fn values_of(
    alloc: Global,
    sizes: &Sizes,
    kind: MultKind,
    lines: &[MultLine],
) -> Result<List<i64>, NoMemory>
    requires { SizesFit sizes.now }
    ensures { IfOk result (λ values. values ≡ values_of sizes.now kind lines.now) }
{
    let count = kind_count(sizes, kind) as usize;
    let mut values = vec![in alloc; 0i64; count]?;
    for line in lines {
        let place = line.number as usize;
        if rank(line.kind) == rank(kind) && place < values.len() {
            values[place] = line.value;
        }
    }
    Ok(List::from_vec(values))
}

/// The multipliers of cuts.
fn weights_of(alloc: Global, cuts: &[CutLine]) -> Result<List<u64>, NoMemory>
    ensures { IfOk result (λ weights. weights ≡ map (λ c. c.weight) cuts.now) }
{
    let mut weights = List::new(alloc);
    for line in cuts {
        weights.push(line.weight)?;
    }
    Ok(weights)
}

/// The cuts, moved out of their lines.
fn cuts_of(alloc: Global, cuts: List<CutLine>) -> Result<List<Cut>, NoMemory>
    ensures { IfOk result (λ list. list ≡ map (λ c. c.cut) cuts) }
{
    let cuts = cuts
        .into_vec()
        .into_iter()
        .map(|line| line.cut)
        .collect(alloc)?;
    Ok(List::from_vec(cuts))
}

/// The multipliers of a node.
fn mult_of(alloc: Global, sizes: &Sizes, node: &NodeDraft) -> Result<Mult, NoMemory>
    requires { SizesFit sizes.now }
    ensures { IfOk result (λ mult. mult ≡ mult_of sizes.now node.now) }
{
    let lines = node.mults.as_slice();
    let vars = values_of(alloc, sizes, MultKind::Var, lines)?;
    let rows = values_of(alloc, sizes, MultKind::Row, lines)?;
    let sets = values_of(alloc, sizes, MultKind::Set, lines)?;
    let cuts = weights_of(alloc, node.cuts.as_slice())?;
    let paths = values_of(alloc, sizes, MultKind::Paths, lines)?;
    Ok(Mult {
        vars,
        rows,
        sets,
        cuts,
        paths,
    })
}

/// Appends dropped arcs of a graph, each with the graph.
fn push_arcs(arcs: &mut List<(u32, u32)>, graph: u32, dropped: &[u32]) -> Result<(), NoMemory>
    ensures { OnOk result (arcs.new ≡ arcs.old ++ map (λ arc. (graph, arc)) dropped.now) }
{
    for arc in dropped {
        arcs.push((graph, *arc))?;
    }
    Ok(())
}

/// The dropped arcs.
fn drops_of(alloc: Global, lines: &[DropLine]) -> Result<List<(u32, u32)>, NoMemory>
    ensures { IfOk result (λ arcs. arcs ≡ flat_map arcs_of lines.now) }
{
    let mut arcs = List::new(alloc);
    for line in lines {
        push_arcs(&mut arcs, line.graph, line.arcs.as_slice())?;
    }
    Ok(arcs)
}

/// What the lines of a node say.
fn form_of(alloc: Global, sizes: &Sizes, node: NodeDraft) -> Result<NodeForm, NoMemory>
    requires { SizesFit sizes.now }
    ensures { IfOk result (λ form. form ≡ form_of sizes.now node node.head) }
{
    let mult = mult_of(alloc, sizes, &node)?;
    let NodeDraft {
        head,
        cuts,
        near,
        tables,
        drops,
        tries,
        ..
    } = node;
    let cuts = cuts_of(alloc, cuts)?;
    let proof = Proof {
        mult,
        cuts,
        near,
        tables,
    };
    match head {
        Head::Split(split) => Ok(NodeForm::Split(split, None)),
        Head::Close => Ok(NodeForm::Close(proof)),
        Head::Fix => Ok(NodeForm::Fix(proof, drops_of(alloc, drops.as_slice())?)),
        Head::List => Ok(NodeForm::List(proof, tries)),
        Head::CountSplit(walk, at) => Ok(NodeForm::CountSplit(walk, at)),
        Head::CountClose => {
            let Proof { mult, .. } = proof;
            Ok(NodeForm::CountClose(mult))
        }
        Head::Point => Ok(NodeForm::Point),
    }
}

/// The nodes, each with the number of its first line; the first number is that of the claim.
fn nodes_of(
    alloc: Global,
    sizes: &Sizes,
    drafts: List<NodeDraft>,
    lines: &[u32],
) -> Result<List<Node>, NoMemory>
    requires { SizesFit sizes.now }
    ensures { IfOk result (λ nodes. nodes ≡ nodes_from sizes.now drafts lines.now 1) }
{
    let mut left = drafts;
    let mut nodes = Vec::new(alloc);
    while let Some(draft) = left.pop() {
        let line = number_at(lines, left.len() + 1);
        let form = form_of(alloc, sizes, draft)?;
        nodes.push(Node { line, form })?;
    }
    nodes.reverse();
    Ok(List::from_vec(nodes))
}

/// A number of a list, or 0 past its end.
fn number_at(lines: &[u32], place: usize) -> u32
    ensures { result ≡ slice_index lines.now place }
{
    match lines.get(place) {
        None => 0,
        Some(line) => *line,
    }
}

/// The certificate that the lines say.
pub fn cert_of(alloc: Global, sizes: &Sizes, draft: CertDraft) -> Result<Cert, NoMemory>
    requires { SizesFit sizes.now }
    ensures { IfOk result (λ cert. cert ≡ cert_of sizes.now (written_of draft) draft.lines) }
{
    let CertDraft {
        goal,
        plan,
        nodes,
        lines,
        ..
    } = draft;
    let goal = match goal {
        None => Goal::Infeasible,
        Some(goal) => goal,
    };
    let goal_line = number_at(lines.as_slice(), 0);
    let end_line = match lines.as_slice().last() {
        None => 0,
        Some(line) => *line,
    };
    let nodes = nodes_of(alloc, sizes, nodes, lines.as_slice())?;
    Ok(Cert {
        goal,
        goal_line,
        end_line,
        plan,
        nodes,
    })
}
