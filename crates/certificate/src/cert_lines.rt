ghost use Rattle.std.specs.Prelude.{◌≡◌, ◌++◌, ◌∷◌, [], true, false, Some, OnOk};
ghost use Rattle.vrp_lex.specs.Text.{words_of};
ghost use Rattle.line_text.specs.Gives.{Gives};
ghost use Rattle.line_text.specs.Words.{and_then, give};
ghost use Rattle.model_text.specs.PathCounts.{AreCounts};
ghost use Rattle.certificate.specs.declared.line_kind.LineKind.TheVariants as line;
ghost use Rattle.certificate.specs.Sizes.{SizesFit};
ghost use Rattle.certificate.specs.Draft.{begun};
ghost use Rattle.certificate.specs.LineKinds.{kind_of, is_inside, begins_node, claims, may_stand, kind_read, line_read, put, Begin, Claim, End};
ghost use Rattle.certificate.specs.Reading.{wants_version, cert_item};

use crate::cert::Goal;
use crate::draft::{CertDraft, Head, NodeDraft};
use crate::line_kind::{LineKind, kind_of, may_stand, passes_limit};
use crate::node_lines::take_inside;
use crate::proof_words::{count_split_of, split_of};
use crate::sizes::Sizes;
use line_text::{Kind, LineFault, fault_if, number_in, version_line, word};
use model_text::take_path;
use path_graph::{List, NoMemory};
use route_model::MAX_COST_RANGE;
use std::alloc::Global;
use std::collections::BTreeMap;
use vrp_lex::split_word;

impl NodeDraft {
    /// A node of which the first line alone is read.
    fn new(alloc: Global, head: Head) -> NodeDraft
        ensures { result ≡ begun head }
    {
        NodeDraft {
            head,
            mults: List::new(alloc),
            cuts: List::new(alloc),
            near: List::new(alloc),
            tables: List::new(alloc),
            drops: List::new(alloc),
            tries: List::new(alloc),
        }
    }
}

/// Begins a node, with the number of its line.
fn begin(alloc: Global, draft: &mut CertDraft, number: u32, head: Head) -> Result<(), NoMemory>
    ensures is { OnOk result (draft.new ≡ put draft.old number (Begin head)) }
    ensures plan { draft.new.plan ≡ draft.old.plan }
{
    draft.lines.push(number)?;
    draft.nodes.push(NodeDraft::new(alloc, head))
}

/// Sets the claim, with the number of its line.
fn set_goal(draft: &mut CertDraft, number: u32, goal: Goal) -> Result<(), NoMemory>
    ensures is { OnOk result (draft.new ≡ put draft.old number (Claim goal)) }
    ensures plan { draft.new.plan ≡ draft.old.plan }
{
    draft.lines.push(number)?;
    draft.goal = Some(goal);
    Ok(())
}

fn take_optimal<'a>(
    sizes: &Sizes,
    draft: &mut CertDraft,
    number: u32,
    words: &'a [u8],
) -> Result<&'a [u8], LineFault>
    ensures gives { Gives (λ rest. (draft.new, words_of rest.now)) result
        (kind_read sizes.now line.Optimal draft.old number (words_of words.now)) }
    ensures plan { draft.new.plan ≡ draft.old.plan }
{
    let (cost, words) = number_in(words, -(MAX_COST_RANGE as i64), MAX_COST_RANGE as i64)?;
    set_goal(draft, number, Goal::Optimal(cost))?;
    Ok(words)
}

fn take_split<'a>(
    alloc: Global,
    sizes: &Sizes,
    draft: &mut CertDraft,
    number: u32,
    words: &'a [u8],
) -> Result<&'a [u8], LineFault>
    requires { SizesFit sizes.now }
    ensures gives { Gives (λ rest. (draft.new, words_of rest.now)) result
        (kind_read sizes.now line.Split draft.old number (words_of words.now)) }
    ensures plan { draft.new.plan ≡ draft.old.plan }
{
    let (head, words) = split_of(words, sizes)?;
    begin(alloc, draft, number, head)?;
    Ok(words)
}

fn take_count_split<'a>(
    alloc: Global,
    sizes: &Sizes,
    draft: &mut CertDraft,
    number: u32,
    words: &'a [u8],
) -> Result<&'a [u8], LineFault>
    ensures gives { Gives (λ rest. (draft.new, words_of rest.now)) result
        (kind_read sizes.now line.CountSplit draft.old number (words_of words.now)) }
    ensures plan { draft.new.plan ≡ draft.old.plan }
{
    let (head, words) = count_split_of(words)?;
    begin(alloc, draft, number, head)?;
    Ok(words)
}

fn take_alone<'a>(
    alloc: Global,
    draft: &mut CertDraft,
    number: u32,
    head: Head,
    words: &'a [u8],
) -> Result<&'a [u8], LineFault>
    ensures gives { Gives (λ rest. (draft.new, words_of rest.now)) result
        (give (put draft.old number (Begin head)) (words_of words.now)) }
    ensures plan { draft.new.plan ≡ draft.old.plan }
{
    begin(alloc, draft, number, head)?;
    Ok(words)
}

/// A line of the last node, of a kind that may stand here.
fn take_inside_line<'a>(
    alloc: Global,
    sizes: &Sizes,
    draft: &mut CertDraft,
    kind: LineKind,
    number: u32,
    words: &'a [u8],
) -> Result<&'a [u8], LineFault>
    requires fit { SizesFit sizes.now }
    requires inside { is_inside kind ≡ true }
    requires stands { may_stand kind draft.old ≡ true }
    ensures gives { Gives (λ rest. (draft.new, words_of rest.now)) result
        (kind_read sizes.now kind draft.old number (words_of words.now)) }
    ensures plan { draft.new.plan ≡ draft.old.plan }
{
    take_inside(alloc, sizes, draft, kind, words)
}

/// A path of the plan.
fn take_path_line<'a>(
    alloc: Global,
    sizes: &Sizes,
    draft: &mut CertDraft,
    counts: &mut BTreeMap<u32, u32>,
    number: u32,
    words: &'a [u8],
) -> Result<&'a [u8], LineFault>
    requires { AreCounts counts.old draft.old.plan }
    ensures gives { Gives (λ rest. (draft.new, words_of rest.now)) result
        (kind_read sizes.now line.Path draft.old number (words_of words.now)) }
    ensures counts { OnOk result (AreCounts counts.new draft.new.plan) }
{
    take_path(alloc, &mut draft.plan, counts, words)
}

/// The end.
fn take_end<'a>(draft: &mut CertDraft, number: u32, words: &'a [u8]) -> Result<&'a [u8], LineFault>
    ensures gives { Gives (λ rest. (draft.new, words_of rest.now)) result
        (give (put draft.old number End) (words_of words.now)) }
    ensures plan { draft.new.plan ≡ draft.old.plan }
{
    draft.lines.push(number)?;
    draft.ended = true;
    Ok(words)
}

/// The first line of a node, of a kind that may stand here.
fn take_begin<'a>(
    alloc: Global,
    sizes: &Sizes,
    draft: &mut CertDraft,
    kind: LineKind,
    number: u32,
    words: &'a [u8],
) -> Result<&'a [u8], LineFault>
    requires fit { SizesFit sizes.now }
    requires begins { begins_node kind ≡ true }
    ensures gives { Gives (λ rest. (draft.new, words_of rest.now)) result
        (kind_read sizes.now kind draft.old number (words_of words.now)) }
    ensures plan { draft.new.plan ≡ draft.old.plan }
{
    match kind {
        LineKind::Split => take_split(alloc, sizes, draft, number, words),
        LineKind::CountSplit => take_count_split(alloc, sizes, draft, number, words),
        LineKind::Close => take_alone(alloc, draft, number, Head::Close, words),
        LineKind::CountClose => take_alone(alloc, draft, number, Head::CountClose, words),
        LineKind::Fix => take_alone(alloc, draft, number, Head::Fix, words),
        LineKind::List => take_alone(alloc, draft, number, Head::List, words),
        _ => take_alone(alloc, draft, number, Head::Point, words),
    }
}

/// A line of the claim.
fn take_claim<'a>(
    sizes: &Sizes,
    draft: &mut CertDraft,
    kind: LineKind,
    number: u32,
    words: &'a [u8],
) -> Result<&'a [u8], LineFault>
    requires { claims kind ≡ true }
    ensures gives { Gives (λ rest. (draft.new, words_of rest.now)) result
        (kind_read sizes.now kind draft.old number (words_of words.now)) }
    ensures plan { draft.new.plan ≡ draft.old.plan }
{
    match kind {
        LineKind::Optimal => take_optimal(sizes, draft, number, words),
        _ => {
            set_goal(draft, number, Goal::Infeasible)?;
            Ok(words)
        }
    }
}

/// A line of a kind that may stand here. The bytes behind the words that are wanted are handed back.
fn take_kind<'a>(
    alloc: Global,
    sizes: &Sizes,
    draft: &mut CertDraft,
    counts: &mut BTreeMap<u32, u32>,
    kind: LineKind,
    number: u32,
    words: &'a [u8],
) -> Result<&'a [u8], LineFault>
    requires fit { SizesFit sizes.now }
    requires counts { AreCounts counts.old draft.old.plan }
    requires stands { may_stand kind draft.old ≡ true }
    ensures gives { Gives (λ rest. (draft.new, words_of rest.now)) result
        (kind_read sizes.now kind draft.old number (words_of words.now)) }
    ensures counts { OnOk result (AreCounts counts.new draft.new.plan) }
{
    match kind {
        LineKind::Path => take_path_line(alloc, sizes, draft, counts, number, words),
        LineKind::Optimal | LineKind::Infeasible => take_claim(sizes, draft, kind, number, words),
        LineKind::End | LineKind::Proof => take_end(draft, number, words),
        LineKind::Split
        | LineKind::CountSplit
        | LineKind::Close
        | LineKind::CountClose
        | LineKind::Point
        | LineKind::Fix
        | LineKind::List => take_begin(alloc, sizes, draft, kind, number, words),
        LineKind::Fore
        | LineKind::Back
        | LineKind::Mult
        | LineKind::Pre
        | LineKind::Cut
        | LineKind::Near
        | LineKind::Table
        | LineKind::Drop
        | LineKind::Tree => take_inside_line(alloc, sizes, draft, kind, number, words),
    }
}

/// A line with this first word.
fn take_known<'a>(
    alloc: Global,
    sizes: &Sizes,
    draft: &mut CertDraft,
    counts: &mut BTreeMap<u32, u32>,
    number: u32,
    first: &[u8],
    words: &'a [u8],
) -> Result<&'a [u8], LineFault>
    requires fit { SizesFit sizes.now }
    requires counts { AreCounts counts.old draft.old.plan }
    ensures gives { Gives (λ rest. (draft.new, words_of rest.now)) result
        (line_read sizes.now draft.old number (kind_of first.now) (words_of words.now)) }
    ensures counts { OnOk result (AreCounts counts.new draft.new.plan) }
{
    let Some(kind) = kind_of(first) else {
        return Err(LineFault::Fault(Kind::Word));
    };
    fault_if(Kind::Order, !may_stand(kind, draft))?;
    fault_if(Kind::TooMany, passes_limit(kind, draft))?;
    take_kind(alloc, sizes, draft, counts, kind, number, words)
}

/// Whether the line of the version is wanted.
fn wants_version(draft: &CertDraft, words: &[u8]) -> bool
    ensures { result ≡ wants_version draft.now (words_of words.now) }
{
    if draft.goal.is_none() || draft.opened {
        return false;
    }
    match split_word(words) {
        None => true,
        Some((first, _)) => first != b"path".as_slice(),
    }
}

/// A line with words before the end. The bytes behind the words that are wanted are handed back.
pub fn take_line<'a>(
    alloc: Global,
    sizes: &Sizes,
    draft: &mut CertDraft,
    counts: &mut BTreeMap<u32, u32>,
    number: u32,
    words: &'a [u8],
) -> Result<&'a [u8], LineFault>
    requires fit { SizesFit sizes.now }
    requires counts { AreCounts counts.old draft.old.plan }
    ensures gives { Gives (λ rest. (draft.new, words_of rest.now)) result
        (and_then (cert_item sizes.now draft.old (words_of words.now))
        (λ item. give (put draft.old number item))) }
    ensures counts { OnOk result (AreCounts counts.new draft.new.plan) }
{
    if wants_version(draft, words) {
        let rest = version_line(words, b"proof", b"1")?;
        draft.opened = true;
        return Ok(rest);
    }
    let (first, words) = word(words)?;
    take_known(alloc, sizes, draft, counts, number, first, words)
}
