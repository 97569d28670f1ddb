ghost use Rattle.std.specs.Prelude.{◌≡◌};
ghost use Rattle.line_text.specs.Words.{is_none};
ghost use Rattle.certificate.specs.Draft.{has_proof, has_mults, is_fix, is_list, has_back, tables_go_on, near_goes_on, cuts_go_on, mults_go_on, open_node, open_table, open_trie};
ghost use Rattle.certificate.specs.declared.line_kind.LineKind.TheVariants as line;
ghost use Rattle.certificate.specs.LineKinds.{kind_of, stands_in, is_plan, may_stand, is_full_in, passes_limit};

use crate::cert::Goal;
use crate::draft::{CertDraft, Head, NodeDraft};
use crate::limits::{MAX_CUTS, MAX_LABELS, MAX_NODES, MAX_STEPS};
use label_rules::Form;
use path_graph::List;

/// The kinds of lines of a certificate.
#[derive(Clone, Copy, Debug, PartialEq, Eq)]
pub enum LineKind {
    Fore,
    Back,
    Mult,
    Pre,
    Split,
    CountSplit,
    Close,
    CountClose,
    Point,
    Fix,
    List,
    Cut,
    Near,
    Table,
    Drop,
    Tree,
    Path,
    Optimal,
    Infeasible,
    Proof,
    End,
}

/// The kind of a line with this first word.
pub fn kind_of(first: &[u8]) -> Option<LineKind>
    ensures { result ≡ kind_of first.now }
{
    if first == b"fore".as_slice() {
        Some(LineKind::Fore)
    } else if first == b"back".as_slice() {
        Some(LineKind::Back)
    } else if first == b"mult".as_slice() {
        Some(LineKind::Mult)
    } else if first == b"pre".as_slice() {
        Some(LineKind::Pre)
    } else if first == b"split".as_slice() {
        Some(LineKind::Split)
    } else if first == b"csplit".as_slice() {
        Some(LineKind::CountSplit)
    } else if first == b"close".as_slice() {
        Some(LineKind::Close)
    } else if first == b"cclose".as_slice() {
        Some(LineKind::CountClose)
    } else if first == b"point".as_slice() {
        Some(LineKind::Point)
    } else if first == b"fix".as_slice() {
        Some(LineKind::Fix)
    } else if first == b"list".as_slice() {
        Some(LineKind::List)
    } else if first == b"cut".as_slice() {
        Some(LineKind::Cut)
    } else if first == b"near".as_slice() {
        Some(LineKind::Near)
    } else if first == b"table".as_slice() {
        Some(LineKind::Table)
    } else if first == b"drop".as_slice() {
        Some(LineKind::Drop)
    } else if first == b"tree".as_slice() {
        Some(LineKind::Tree)
    } else if first == b"path".as_slice() {
        Some(LineKind::Path)
    } else if first == b"optimal".as_slice() {
        Some(LineKind::Optimal)
    } else if first == b"infeasible".as_slice() {
        Some(LineKind::Infeasible)
    } else if first == b"proof".as_slice() {
        Some(LineKind::Proof)
    } else if first == b"end".as_slice() {
        Some(LineKind::End)
    } else {
        None
    }
}

/// Whether a list has no item.
fn is_none<T>(items: &List<T>) -> bool
    ensures { result ≡ is_none items.now }
{
    items.is_empty()
}

fn has_proof(head: Head) -> bool
    ensures { result ≡ has_proof head }
{
    matches!(head, Head::Close | Head::Fix | Head::List)
}

fn has_mults(head: Head) -> bool
    ensures { result ≡ has_mults head }
{
    matches!(
        head,
        Head::Close | Head::Fix | Head::List | Head::CountClose
    )
}

fn has_back(form: Form) -> bool
    ensures { result ≡ has_back form }
{
    !matches!(form, Form::Full)
}

/// Whether no arc is dropped and no prefix tree is begun.
fn tables_go_on(node: &NodeDraft) -> bool
    ensures { result ≡ tables_go_on node.now }
{
    is_none(&node.drops) && is_none(&node.tries)
}

fn near_goes_on(node: &NodeDraft) -> bool
    ensures { result ≡ near_goes_on node.now }
{
    is_none(&node.tables) && tables_go_on(node)
}

fn cuts_go_on(node: &NodeDraft) -> bool
    ensures { result ≡ cuts_go_on node.now }
{
    is_none(&node.near) && near_goes_on(node)
}

fn mults_go_on(node: &NodeDraft) -> bool
    ensures { result ≡ mults_go_on node.now }
{
    is_none(&node.cuts) && cuts_go_on(node)
}

/// Whether one more forward label may stand.
fn fore_stands(node: &NodeDraft) -> bool
    ensures { result ≡ stands_in line.Fore node.now }
{
    match node.tables.as_slice().last() {
        None => false,
        Some(table) => tables_go_on(node) && is_none(&table.back),
    }
}

/// Whether one more backward label may stand.
fn back_stands(node: &NodeDraft) -> bool
    ensures { result ≡ stands_in line.Back node.now }
{
    match node.tables.as_slice().last() {
        None => false,
        Some(table) => tables_go_on(node) && has_back(table.form),
    }
}

/// Whether a line of this kind may stand behind these lines of a node.
fn stands_in(kind: LineKind, node: &NodeDraft) -> bool
    ensures { result ≡ stands_in kind node.now }
{
    match kind {
        LineKind::Mult => has_mults(node.head) && mults_go_on(node),
        LineKind::Cut => has_proof(node.head) && cuts_go_on(node),
        LineKind::Near => has_proof(node.head) && near_goes_on(node),
        LineKind::Table => has_proof(node.head) && tables_go_on(node),
        LineKind::Fore => fore_stands(node),
        LineKind::Back => back_stands(node),
        LineKind::Drop => matches!(node.head, Head::Fix),
        LineKind::Tree => matches!(node.head, Head::List),
        LineKind::Pre => !is_none(&node.tries),
        _ => false,
    }
}

/// Whether a line of this kind may stand in the last node.
fn stands_in_last(kind: LineKind, draft: &CertDraft) -> bool
    ensures { result ≡ stands_in kind (open_node draft.now) }
{
    match draft.nodes.as_slice().last() {
        None => false,
        Some(node) => stands_in(kind, node),
    }
}

/// Whether the claim is that of a plan.
fn is_plan(goal: Option<Goal>) -> bool
    ensures { result ≡ is_plan goal }
{
    matches!(goal, Some(Goal::Optimal(_)))
}

/// Whether a line of this kind may stand here.
pub fn may_stand(kind: LineKind, draft: &CertDraft) -> bool
    ensures { result ≡ may_stand kind draft.now }
{
    match kind {
        LineKind::Optimal | LineKind::Infeasible => draft.goal.is_none(),
        LineKind::Path => is_plan(draft.goal) && !draft.opened,
        LineKind::Proof => false,
        LineKind::Split
        | LineKind::Close
        | LineKind::Fix
        | LineKind::List
        | LineKind::CountSplit
        | LineKind::CountClose
        | LineKind::Point
        | LineKind::End => draft.opened,
        _ => draft.opened && stands_in_last(kind, draft),
    }
}

/// Whether one more forward label of the last table is too many.
fn fore_is_full(node: &NodeDraft) -> bool
    ensures { result ≡ is_full_in line.Fore node.now }
{
    match node.tables.as_slice().last() {
        None => false,
        Some(table) => table.fore.len() >= MAX_LABELS,
    }
}

/// Whether one more backward label of the last table is too many.
fn back_is_full(node: &NodeDraft) -> bool
    ensures { result ≡ is_full_in line.Back node.now }
{
    match node.tables.as_slice().last() {
        None => false,
        Some(table) => table.back.len() >= MAX_LABELS,
    }
}

/// Whether one more step of the last prefix tree is too many.
fn trie_is_full(node: &NodeDraft) -> bool
    ensures { result ≡ is_full_in line.Pre node.now }
{
    match node.tries.as_slice().last() {
        None => false,
        Some(trie) => trie.steps.len() >= MAX_STEPS,
    }
}

/// Whether one more line of this kind passes a limit of a node.
fn is_full_in(kind: LineKind, node: &NodeDraft) -> bool
    ensures { result ≡ is_full_in kind node.now }
{
    match kind {
        LineKind::Cut => node.cuts.len() >= MAX_CUTS,
        LineKind::Fore => fore_is_full(node),
        LineKind::Back => back_is_full(node),
        LineKind::Pre => trie_is_full(node),
        _ => false,
    }
}

/// Whether one more line of this kind passes a limit of the last node.
fn is_full_in_last(kind: LineKind, draft: &CertDraft) -> bool
    ensures { result ≡ is_full_in kind (open_node draft.now) }
{
    match draft.nodes.as_slice().last() {
        None => false,
        Some(node) => is_full_in(kind, node),
    }
}

/// Whether one more line of this kind passes a limit.
pub fn passes_limit(kind: LineKind, draft: &CertDraft) -> bool
    ensures { result ≡ passes_limit kind draft.now }
{
    match kind {
        LineKind::Split
        | LineKind::Close
        | LineKind::Fix
        | LineKind::List
        | LineKind::CountSplit
        | LineKind::CountClose
        | LineKind::Point => draft.nodes.len() >= MAX_NODES,
        _ => is_full_in_last(kind, draft),
    }
}
