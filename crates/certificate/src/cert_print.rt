ghost use Rattle.std.specs.Prelude.{◌≡◌, ◌<◌, ◌≤◌, ◌++◌, ◌∷◌, [], map, take, drop, length, decimal, All, OnOk, IfOk};
ghost use Rattle.std.specs.List.{flat_map};
ghost use Rattle.line_text.specs.Spelling.{line_of_words, text_of_lines};
ghost use Rattle.model_text.specs.PathText.{path_line};
ghost use Rattle.certificate.specs.declared.draft.Head.TheVariants as head;
ghost use Rattle.certificate.specs.Sizes.{SizesFit, sizes_of};
ghost use Rattle.certificate.specs.ProofWords.{quantity_words, head_words, drop_words, step_words};
ghost use Rattle.certificate.specs.CertText.{trie_lines, goal_words};
ghost use Rattle.certificate.specs.CertFits.{CertFits};
ghost use Rattle.certificate.specs.CertPrint.{further, BeginsWith, ProofHasWeights, drops_text, node_text, cert_text};
ghost use Rattle.certificate.specs.PrintedText.{SpellsAside};

use crate::cert::{Cert, Goal, Node, NodeForm, Step, Trie};
use crate::proof_print::{print_mults, print_proof};
use crate::sizes::{Sizes, sizes_of};
use line_text::LineWriter;
use model_text::print_path;
use path_graph::{List, NoMemory};
use route_model::{Model, Quantity, Split, Taken};
use std::alloc::Global;

fn print_goal(text: &mut LineWriter, goal: Goal) -> Result<(), NoMemory>
    ensures { OnOk result (text.new ≡ text.old ++ line_of_words (goal_words goal)) }
{
    match goal {
        Goal::Optimal(cost) => {
            text.first(b"optimal")?;
            text.number(cost)?;
            text.end_line()
        }
        Goal::Infeasible => text.first(b"infeasible\n"),
    }
}

fn print_paths(text: &mut LineWriter, paths: &[Taken]) -> Result<(), NoMemory>
    ensures { OnOk result (text.new ≡ text.old ++ flat_map path_line paths.now) }
{
    for path in paths {
        print_path(text, path)?;
    }
    Ok(())
}

fn print_quantity(text: &mut LineWriter, quantity: Quantity) -> Result<(), NoMemory>
    ensures { OnOk result (text.new ≡ text.old ++ further (quantity_words quantity)) }
{
    match quantity {
        Quantity::Var(number) => print_named(text, b"var", number),
        Quantity::Row(number) => print_named(text, b"row", number),
        Quantity::Set(number) => print_named(text, b"set", u32::from(number)),
        Quantity::Cut(number) => print_named(text, b"cut", number),
        Quantity::Paths(number) => print_named(text, b"paths", number),
    }
}

fn print_named(text: &mut LineWriter, name: &[u8], number: u32) -> Result<(), NoMemory>
    ensures { OnOk result (text.new ≡ text.old ++ further (name.now ∷ decimal number ∷ [])) }
{
    text.word(name)?;
    text.number(number)
}

fn print_split(text: &mut LineWriter, split: &Split) -> Result<(), NoMemory>
    ensures { OnOk result (text.new
        ≡ text.old ++ line_of_words (head_words (head.Split split.now))) }
{
    text.first(b"split")?;
    print_quantity(text, split.quantity)?;
    text.number(split.at)?;
    text.end_line()
}

fn print_count_split(text: &mut LineWriter, walk: u32, at: i64) -> Result<(), NoMemory>
    ensures { OnOk result (text.new
        ≡ text.old ++ line_of_words (head_words (head.CountSplit walk at))) }
{
    text.first(b"csplit")?;
    text.number(walk)?;
    text.number(at)?;
    text.end_line()
}

/// How many dropped arcs of this graph come first.
fn run_of(drops: &[(u32, u32)], graph: u32) -> usize
    ensures within { result ≤ length drops.now }
    ensures inside { All (λ d. d.0 ≡ graph) (take result drops.now) }
    ensures behind { ¬ (BeginsWith graph (drop result drops.now)) }
{
    for k in 0..drops.len() {
        if drops[k].0 != graph {
            return k;
        }
    }
    drops.len()
}

/// Writes the line of dropped arcs of a graph.
fn print_drop(text: &mut LineWriter, graph: u32, drops: &[(u32, u32)]) -> Result<(), NoMemory>
    ensures { OnOk result (text.new ≡ text.old
        ++ line_of_words (drop_words (record { graph = graph; arcs = map (λ d. d.1) drops.now }))) }
{
    text.first(b"drop")?;
    text.number(graph)?;
    for dropped in drops {
        text.number(dropped.1)?;
    }
    text.end_line()
}

/// Writes the line of the first run of dropped arcs, and tells how many they are.
fn print_run(text: &mut LineWriter, drops: &[(u32, u32)]) -> Result<usize, NoMemory>
    requires { 0 < length drops.now }
    ensures some { IfOk result (λ count. 1 ≤ count) }
    ensures within { IfOk result (λ count. count ≤ length drops.now) }
    ensures text { IfOk result (λ count.
        text.new ++ drops_text (drop count drops.now) ≡ text.old ++ drops_text drops.now) }
{
    let graph = drops[0].0;
    let count = run_of(drops, graph);
    print_drop(text, graph, &drops[..count])?;
    Ok(count)
}

/// Writes the lines of dropped arcs, one for each run of arcs of one graph.
fn print_drops(text: &mut LineWriter, drops: &[(u32, u32)]) -> Result<(), NoMemory>
    ensures { OnOk result (text.new ≡ text.old ++ drops_text drops.now) }
{
    let mut from = 0;
    while from < drops.len() {
        from += print_run(text, &drops[from..])?;
    }
    Ok(())
}

fn print_trie(text: &mut LineWriter, trie: &Trie) -> Result<(), NoMemory>
    ensures { OnOk result (text.new ≡ text.old ++ text_of_lines (trie_lines trie.now)) }
{
    text.first(b"tree")?;
    text.number(trie.graph)?;
    text.end_line()?;
    print_steps(text, trie.steps.as_slice())
}

fn print_steps(text: &mut LineWriter, steps: &[Step]) -> Result<(), NoMemory>
    ensures { OnOk result (text.new
        ≡ text.old ++ flat_map (λ p. line_of_words (step_words p)) steps.now) }
{
    for step in steps {
        text.first(b"pre")?;
        text.number(step.parent)?;
        text.number(step.arc)?;
        text.end_line()?;
    }
    Ok(())
}

fn print_tries(text: &mut LineWriter, tries: &[Trie]) -> Result<(), NoMemory>
    ensures { OnOk result (text.new
        ≡ text.old ++ flat_map (λ t. text_of_lines (trie_lines t)) tries.now) }
{
    for trie in tries {
        print_trie(text, trie)?;
    }
    Ok(())
}

/// Writes a node.
fn print_node(text: &mut LineWriter, sizes: &Sizes, form: &NodeForm) -> Result<(), NoMemory>
    requires sizes { SizesFit sizes.now }
    requires weights { ProofHasWeights form.now }
    ensures { OnOk result (text.new ≡ text.old ++ node_text sizes.now form.now) }
{
    match form {
        NodeForm::Split(split, _) => print_split(text, split),
        NodeForm::Close(proof) => {
            text.first(b"close\n")?;
            print_proof(text, sizes, proof)
        }
        NodeForm::Fix(proof, drops) => {
            text.first(b"fix\n")?;
            print_proof(text, sizes, proof)?;
            print_drops(text, drops.as_slice())
        }
        NodeForm::List(proof, tries) => {
            text.first(b"list\n")?;
            print_proof(text, sizes, proof)?;
            print_tries(text, tries.as_slice())
        }
        NodeForm::CountSplit(walk, at) => print_count_split(text, *walk, *at),
        NodeForm::CountClose(mult) => {
            text.first(b"cclose\n")?;
            print_mults(text, mult)
        }
        NodeForm::Point => text.first(b"point\n"),
    }
}

fn print_nodes(text: &mut LineWriter, sizes: &Sizes, nodes: &[Node]) -> Result<(), NoMemory>
    requires sizes { SizesFit sizes.now }
    requires weights { All (λ n. ProofHasWeights n.form) nodes.now }
    ensures { OnOk result (text.new
        ≡ text.old ++ flat_map (λ n. node_text sizes.now n.form) nodes.now) }
{
    for node in nodes {
        print_node(text, sizes, &node.form)?;
    }
    Ok(())
}

/// The printed text of a certificate.
fn printed(alloc: Global, model: &Model, cert: &Cert) -> Result<LineWriter, NoMemory>
    requires { CertFits model.now cert.now }
    ensures text { IfOk result (λ text. text ≡ cert_text model.now cert.now) }
    ensures sizes { IfOk result (λ _. SizesFit (sizes_of model.now)) }
{
    let sizes = sizes_of(alloc, model)?;
    let mut text = LineWriter::new(alloc);
    print_goal(&mut text, cert.goal)?;
    print_paths(&mut text, cert.plan.paths.as_slice())?;
    text.first(b"proof 1\n")?;
    print_nodes(&mut text, &sizes, cert.nodes.as_slice())?;
    text.first(b"end\n")?;
    Ok(text)
}

/// The printed text of a certificate, for a model: the one valid text of it in printed form.
///
/// There is one blank between words, no comment, no leading zero, and LF after each line. A multiplier of 0 has no line,
/// and each run of dropped arcs of one graph has one line. The proof of a split and the numbers of lines are not printed.
/// The time is linear in the text and in the multipliers of each node.
pub fn write_cert(alloc: Global, model: &Model, cert: &Cert) -> Result<List<u8>, NoMemory>
    requires { CertFits model.now cert.now }
    ensures text { IfOk result (λ bytes. bytes ≡ cert_text model.now cert.now) }
    ensures spells { IfOk result (λ bytes. SpellsAside model.now bytes cert.now) }
{
    let text = printed(alloc, model, cert)?;
    Ok(text.into_list())
}
