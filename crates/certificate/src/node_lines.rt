ghost use Rattle.std.specs.Prelude.{◌≡◌, ◌<◌, ◌≤◌, ◌++◌, ◌∷◌, [], length, true, OnOk};
ghost use Rattle.vrp_lex.specs.Text.{words_of};
ghost use Rattle.line_text.specs.Gives.{Gives};
ghost use Rattle.line_text.specs.Words.{and_then, give, known_below};
ghost use Rattle.certificate.specs.declared.line_kind.LineKind.TheVariants as line;
ghost use Rattle.certificate.specs.Sizes.{SizesFit};
ghost use Rattle.certificate.specs.Draft.{open_node, open_table, open_trie, with_node, with_table, with_fore, with_back, with_step, shape_in};
ghost use Rattle.certificate.specs.LineKinds.{stands_in, inside_read};

use crate::cert::{Step, Trie};
use crate::draft::{CertDraft, NodeDraft};
use crate::label_words::label_of;
use crate::line_kind::LineKind;
use crate::proof_words::{cut_of, drop_of, graph_at, mult_of, near_of, step_of, table_of};
use crate::sizes::{Shape, Sizes};
use label_rules::Label;
use line_text::{Kind, LineFault, known_below};
use path_graph::{List, NoMemory};
use std::alloc::Global;

/// What the label lines of the last table show.
fn shape_in(sizes: &Sizes, node: &NodeDraft) -> Shape
    ensures { result ≡ shape_in sizes.now node.now }
{
    let graph = match node.tables.as_slice().last() {
        None => 0,
        Some(table) => table.graph,
    };
    let graph = graph_at(sizes, graph);
    Shape {
        vertices: graph.vertices,
        ends: graph.ends,
        sets: sizes.sets,
        cuts: node.cuts.len(),
    }
}

/// Appends a forward label to the last table.
fn push_fore(node: &mut NodeDraft, label: Label) -> Result<(), NoMemory>
    requires { 0 < length node.old.tables }
    ensures { OnOk result (node.new ≡ with_table node.old (with_fore (open_table node.old) label)) }
{
    match node.tables.last_mut() {
        None => Err(NoMemory),
        Some(table) => table.fore.push(label),
    }
}

/// Appends a backward label to the last table.
fn push_back(node: &mut NodeDraft, label: Label) -> Result<(), NoMemory>
    requires { 0 < length node.old.tables }
    ensures { OnOk result (node.new ≡ with_table node.old (with_back (open_table node.old) label)) }
{
    match node.tables.last_mut() {
        None => Err(NoMemory),
        Some(table) => table.back.push(label),
    }
}

/// Appends a step to the last prefix tree.
fn push_step(node: &mut NodeDraft, step: Step) -> Result<(), NoMemory>
    requires { 0 < length node.old.tries }
    ensures { OnOk result (node.new ≡ with_step node.old step) }
{
    match node.tries.last_mut() {
        None => Err(NoMemory),
        Some(trie) => trie.steps.push(step),
    }
}

fn take_mult<'a>(
    sizes: &Sizes,
    node: &mut NodeDraft,
    words: &'a [u8],
) -> Result<&'a [u8], LineFault>
    requires { SizesFit sizes.now }
    ensures { Gives (λ rest. (node.new, words_of rest.now)) result
        (inside_read sizes.now line.Mult node.old (words_of words.now)) }
{
    let (line, words) = mult_of(words, sizes, node.mults.as_slice())?;
    node.mults.push(line)?;
    Ok(words)
}

fn take_cut<'a>(
    alloc: Global,
    sizes: &Sizes,
    node: &mut NodeDraft,
    words: &'a [u8],
) -> Result<&'a [u8], LineFault>
    requires { SizesFit sizes.now }
    ensures { Gives (λ rest. (node.new, words_of rest.now)) result
        (inside_read sizes.now line.Cut node.old (words_of words.now)) }
{
    let (line, words) = cut_of(alloc, words, sizes.sets)?;
    node.cuts.push(line)?;
    Ok(words)
}

fn take_near<'a>(
    alloc: Global,
    sizes: &Sizes,
    node: &mut NodeDraft,
    words: &'a [u8],
) -> Result<&'a [u8], LineFault>
    requires { SizesFit sizes.now }
    ensures { Gives (λ rest. (node.new, words_of rest.now)) result
        (inside_read sizes.now line.Near node.old (words_of words.now)) }
{
    let (line, words) = near_of(alloc, words, sizes, node.near.as_slice())?;
    node.near.push(line)?;
    Ok(words)
}

fn take_table<'a>(
    alloc: Global,
    sizes: &Sizes,
    node: &mut NodeDraft,
    words: &'a [u8],
) -> Result<&'a [u8], LineFault>
    requires { SizesFit sizes.now }
    ensures { Gives (λ rest. (node.new, words_of rest.now)) result
        (inside_read sizes.now line.Table node.old (words_of words.now)) }
{
    let (table, words) = table_of(alloc, words, sizes, node.tables.as_slice())?;
    node.tables.push(table)?;
    Ok(words)
}

fn take_fore<'a>(
    alloc: Global,
    sizes: &Sizes,
    node: &mut NodeDraft,
    words: &'a [u8],
) -> Result<&'a [u8], LineFault>
    requires fit { SizesFit sizes.now }
    requires some { 0 < length node.old.tables }
    ensures { Gives (λ rest. (node.new, words_of rest.now)) result
        (inside_read sizes.now line.Fore node.old (words_of words.now)) }
{
    let shape = shape_in(sizes, node);
    let (label, words) = label_of(alloc, words, &shape)?;
    push_fore(node, label)?;
    Ok(words)
}

fn take_back<'a>(
    alloc: Global,
    sizes: &Sizes,
    node: &mut NodeDraft,
    words: &'a [u8],
) -> Result<&'a [u8], LineFault>
    requires fit { SizesFit sizes.now }
    requires some { 0 < length node.old.tables }
    ensures { Gives (λ rest. (node.new, words_of rest.now)) result
        (inside_read sizes.now line.Back node.old (words_of words.now)) }
{
    let shape = shape_in(sizes, node);
    let (label, words) = label_of(alloc, words, &shape)?;
    push_back(node, label)?;
    Ok(words)
}

fn take_drop<'a>(
    alloc: Global,
    sizes: &Sizes,
    node: &mut NodeDraft,
    words: &'a [u8],
) -> Result<&'a [u8], LineFault>
    requires { SizesFit sizes.now }
    ensures { Gives (λ rest. (node.new, words_of rest.now)) result
        (inside_read sizes.now line.Drop node.old (words_of words.now)) }
{
    let (line, words) = drop_of(alloc, words, sizes)?;
    node.drops.push(line)?;
    Ok(words)
}

fn take_tree<'a>(
    alloc: Global,
    sizes: &Sizes,
    node: &mut NodeDraft,
    words: &'a [u8],
) -> Result<&'a [u8], LineFault>
    requires { SizesFit sizes.now }
    ensures { Gives (λ rest. (node.new, words_of rest.now)) result
        (inside_read sizes.now line.Tree node.old (words_of words.now)) }
{
    let (graph, words) = known_below(words, sizes.graphs.len() as u32)?;
    node.tries.push(Trie {
        graph,
        steps: List::new(alloc),
    })?;
    Ok(words)
}

fn take_step<'a>(
    node: &mut NodeDraft,
    words: &'a [u8],
    sizes: &Sizes,
) -> Result<&'a [u8], LineFault>
    requires { 0 < length node.old.tries }
    ensures { Gives (λ rest. (node.new, words_of rest.now)) result
        (inside_read sizes.now line.Pre node.old (words_of words.now)) }
{
    let (step, words) = step_of(words)?;
    push_step(node, step)?;
    Ok(words)
}

/// A line of a node, of a kind that may stand behind its lines so far.
fn take_in_node<'a>(
    alloc: Global,
    sizes: &Sizes,
    node: &mut NodeDraft,
    kind: LineKind,
    words: &'a [u8],
) -> Result<&'a [u8], LineFault>
    requires fit { SizesFit sizes.now }
    requires stands { stands_in kind node.old ≡ true }
    ensures { Gives (λ rest. (node.new, words_of rest.now)) result
        (inside_read sizes.now kind node.old (words_of words.now)) }
{
    match kind {
        LineKind::Mult => take_mult(sizes, node, words),
        LineKind::Cut => take_cut(alloc, sizes, node, words),
        LineKind::Near => take_near(alloc, sizes, node, words),
        LineKind::Table => take_table(alloc, sizes, node, words),
        LineKind::Fore => take_fore(alloc, sizes, node, words),
        LineKind::Back => take_back(alloc, sizes, node, words),
        LineKind::Drop => take_drop(alloc, sizes, node, words),
        LineKind::Tree => take_tree(alloc, sizes, node, words),
        _ => take_step(node, words, sizes),
    }
}

/// A line of the last node, of a kind that may stand there.
pub fn take_inside<'a>(
    alloc: Global,
    sizes: &Sizes,
    draft: &mut CertDraft,
    kind: LineKind,
    words: &'a [u8],
) -> Result<&'a [u8], LineFault>
    requires fit { SizesFit sizes.now }
    requires stands { stands_in kind (open_node draft.old) ≡ true }
    ensures gives { Gives (λ rest. (draft.new, words_of rest.now)) result
        (and_then (inside_read sizes.now kind (open_node draft.old) (words_of words.now))
        (λ node. give (with_node draft.old node))) }
    ensures plan { draft.new.plan ≡ draft.old.plan }
{
    match draft.nodes.last_mut() {
        None => Err(LineFault::Fault(Kind::Order)),
        Some(node) => take_in_node(alloc, sizes, node, kind, words),
    }
}
