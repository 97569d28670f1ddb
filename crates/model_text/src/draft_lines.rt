ghost use Rattle.std.specs.Prelude.{◌≡◌, ◌<◌, ◌≤◌, ◌+◌, true, false, OnOk, [], length};
ghost use Rattle.vrp_lex.specs.Text.{words_of};
ghost use Rattle.model_text.specs.declared.draft.Stage.TheVariants.{Sets};
ghost use Rattle.model_text.specs.declared.line_kind.LineKind.TheVariants as line;
ghost use Rattle.model_text.specs.Draft.{no_section, sections_of, stage_in};
ghost use Rattle.model_text.specs.LineKinds.{may_stand, passes_limit, further_wanted};
ghost use Rattle.model_text.specs.Totals.{AreCoefs, IsUnderway, KeepsVarsAndRows};
ghost use Rattle.line_text.specs.Gives.{Gives};

use crate::draft::{Draft, Section, Stage};
use crate::graph_words::{arc_of, graph_of, vertex_of};
use crate::line_kind::LineKind;
use crate::line_words::{sets_of, var_of};
use crate::row_words::row_of;
use line_text::LineFault;
use path_graph::NoMemory;
use std::alloc::Global;
use std::mem;

/// The further words of a `var` line.
fn take_var<'a>(
    draft: &mut Draft,
    coefs: &mut Vec<u32>,
    number: u32,
    words: &'a [u8],
) -> Result<&'a [u8], LineFault>
    requires underway { IsUnderway draft.old }
    requires coefs { AreCoefs coefs.old.items draft.old.vars draft.old.rows [] }
    requires stands { may_stand line.Var draft.old.stage ≡ true }
    requires room { passes_limit line.Var draft.old ≡ false }
    ensures gives { Gives (λ rest. (draft.new, words_of rest.now)) result
        (further_wanted line.Var draft.old number (words_of words.now)) }
    ensures underway { OnOk result (IsUnderway draft.new) }
    ensures coefs { OnOk result (AreCoefs coefs.new.items draft.new.vars draft.new.rows []) }
{
    let (var, words) = var_of(words)?;
    draft.vars.push(var)?;
    coefs.push(0)?;
    Ok(words)
}

/// The further words of a `row` line.
fn take_row<'a>(
    alloc: Global,
    draft: &mut Draft,
    coefs: &mut Vec<u32>,
    number: u32,
    words: &'a [u8],
) -> Result<&'a [u8], LineFault>
    requires underway { IsUnderway draft.old }
    requires coefs { AreCoefs coefs.old.items draft.old.vars draft.old.rows [] }
    ensures gives { Gives (λ rest. (draft.new, words_of rest.now)) result
        (further_wanted line.Row draft.old number (words_of words.now)) }
    ensures underway { OnOk result (IsUnderway draft.new) }
    ensures coefs { OnOk result (AreCoefs coefs.new.items draft.new.vars draft.new.rows []) }
{
    let (row, words) = row_of(alloc, words, draft, coefs.as_mut_slice())?;
    draft.rows.push(row)?;
    draft.stage = Stage::Rows;
    Ok(words)
}

/// The further words of a `sets` line.
fn take_sets<'a>(draft: &mut Draft, number: u32, words: &'a [u8]) -> Result<&'a [u8], LineFault>
    requires underway { IsUnderway draft.old }
    requires stands { may_stand line.Sets draft.old.stage ≡ true }
    ensures gives { Gives (λ rest. (draft.new, words_of rest.now)) result
        (further_wanted line.Sets draft.old number (words_of words.now)) }
    ensures underway { OnOk result (IsUnderway draft.new) }
    ensures keeps { OnOk result (KeepsVarsAndRows draft.old draft.new) }
{
    let (sets, words) = sets_of(words)?;
    draft.sets = sets;
    draft.stage = Stage::Sets;
    Ok(words)
}

/// Ends the graph whose lines were read, if there is one: appends it to those that are done.
fn close_graph(alloc: Global, draft: &mut Draft) -> Result<(), NoMemory>
    ensures { OnOk result (draft.new ≡ record draft.old {
      stage = Sets;
      done = sections_of draft.old;
      current = no_section;
    }) }
{
    let none = Section::none(alloc);
    let current = mem::replace(&mut draft.current, none);
    if draft.stage.is_in_graph() {
        draft.done.push(current)?;
    }
    draft.stage = Stage::Sets;
    Ok(())
}

/// The further words of a `graph` line.
fn take_graph<'a>(
    alloc: Global,
    draft: &mut Draft,
    number: u32,
    words: &'a [u8],
) -> Result<&'a [u8], LineFault>
    requires underway { IsUnderway draft.old }
    requires stands { may_stand line.Graph draft.old.stage ≡ true }
    requires room { passes_limit line.Graph draft.old ≡ false }
    ensures gives { Gives (λ rest. (draft.new, words_of rest.now)) result
        (further_wanted line.Graph draft.old number (words_of words.now)) }
    ensures underway { OnOk result (IsUnderway draft.new) }
    ensures keeps { OnOk result (KeepsVarsAndRows draft.old draft.new) }
{
    close_graph(alloc, draft)?;
    let ((count, ends), words) = graph_of(words, draft.done.as_slice())?;
    draft.stage = Stage::Vertices;
    draft.current = Section::new(alloc, count, ends);
    Ok(words)
}

/// Where the next line stands in a graph.
fn stage_in(section: &Section) -> Stage
    ensures { result ≡ stage_in section.now }
{
    if section.vertices.len() == section.count as usize {
        Stage::Arcs
    } else {
        Stage::Vertices
    }
}

/// The further words of a `vertex` line.
fn take_vertex<'a>(draft: &mut Draft, number: u32, words: &'a [u8]) -> Result<&'a [u8], LineFault>
    requires underway { IsUnderway draft.old }
    requires stands { may_stand line.Vertex draft.old.stage ≡ true }
    ensures gives { Gives (λ rest. (draft.new, words_of rest.now)) result
        (further_wanted line.Vertex draft.old number (words_of words.now)) }
    ensures underway { OnOk result (IsUnderway draft.new) }
    ensures keeps { OnOk result (KeepsVarsAndRows draft.old draft.new) }
{
    let (vertex, words) = vertex_of(words, draft.sets, &draft.current)?;
    draft.current.vertices.push(vertex)?;
    draft.stage = stage_in(&draft.current);
    Ok(words)
}

/// The further words of an `arc` line.
fn take_arc<'a>(
    alloc: Global,
    draft: &mut Draft,
    number: u32,
    words: &'a [u8],
) -> Result<&'a [u8], LineFault>
    requires underway { IsUnderway draft.old }
    requires stands { may_stand line.Arc draft.old.stage ≡ true }
    requires room { passes_limit line.Arc draft.old ≡ false }
    ensures gives { Gives (λ rest. (draft.new, words_of rest.now)) result
        (further_wanted line.Arc draft.old number (words_of words.now)) }
    ensures underway { OnOk result (IsUnderway draft.new) }
    ensures keeps { OnOk result (KeepsVarsAndRows draft.old draft.new) }
{
    let vars = draft.vars.len() as u32;
    let ((arc, mapped), words) = arc_of(alloc, words, vars, &draft.current)?;
    draft.current.arcs.push(arc)?;
    draft.current.maps.push(mapped)?;
    draft.stage = stage_in(&draft.current);
    Ok(words)
}

/// The `end` line has no further words.
fn take_end<'a>(
    alloc: Global,
    draft: &mut Draft,
    number: u32,
    words: &'a [u8],
) -> Result<&'a [u8], LineFault>
    requires underway { IsUnderway draft.old }
    requires stands { may_stand line.End draft.old.stage ≡ true }
    ensures gives { Gives (λ rest. (draft.new, words_of rest.now)) result
        (further_wanted line.End draft.old number (words_of words.now)) }
    ensures underway { OnOk result (IsUnderway draft.new) }
    ensures keeps { OnOk result (KeepsVarsAndRows draft.old draft.new) }
{
    close_graph(alloc, draft)?;
    draft.stage = Stage::Ended;
    draft.end = number;
    Ok(words)
}

/// The further words of a line of this kind, which may stand here and passes no limit. The bytes behind the words that
/// are wanted are handed back.
pub fn take_further<'a>(
    alloc: Global,
    draft: &mut Draft,
    coefs: &mut Vec<u32>,
    kind: LineKind,
    number: u32,
    words: &'a [u8],
) -> Result<&'a [u8], LineFault>
    requires underway { IsUnderway draft.old }
    requires coefs { AreCoefs coefs.old.items draft.old.vars draft.old.rows [] }
    requires stands { may_stand kind draft.old.stage ≡ true }
    requires room { passes_limit kind draft.old ≡ false }
    ensures gives { Gives (λ rest. (draft.new, words_of rest.now)) result
        (further_wanted kind draft.old number (words_of words.now)) }
    ensures underway { OnOk result (IsUnderway draft.new) }
    ensures coefs { OnOk result (AreCoefs coefs.new.items draft.new.vars draft.new.rows []) }
{
    match kind {
        LineKind::Version => Ok(words),
        LineKind::Var => take_var(draft, coefs, number, words),
        LineKind::Row => take_row(alloc, draft, coefs, number, words),
        LineKind::Sets => take_sets(draft, number, words),
        LineKind::Graph => take_graph(alloc, draft, number, words),
        LineKind::Vertex => take_vertex(draft, number, words),
        LineKind::Arc => take_arc(alloc, draft, number, words),
        LineKind::End => take_end(alloc, draft, number, words),
    }
}
