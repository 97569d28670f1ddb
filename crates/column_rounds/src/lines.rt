//! Near lists as the lines of a proof tell them.

ghost use Rattle.std.specs.Prelude.{◌≡◌, ◌⊎◌, ◌+◌, ◌<◌, ◌≤◌, IfOk, OnOk, [], ◌∷◌, ◌++◌, length};
ghost use Rattle.line_text.specs.Items.{EachAfter};
ghost use Rattle.ng_sets.specs.Near.{FitsGraphs};
ghost use Rattle.certificate.specs.CertText.{NearMay};
ghost use Rattle.certificate.specs.Sizes.{sizes_of};
ghost use Rattle.column_rounds.specs.Lines.{AreLinesBefore, HasAllBelow};

use ng_sets::Near;
use path_graph::{List, NoMemory, SetBits};
use route_model::Model;
use std::alloc::Global;

/// The graph, the vertex and the sets near it.
pub(crate) type NearLine = (u32, u32, SetBits);

/// The near lists by graph and vertex, those without a set left out.
pub(crate) fn lines_of(
    alloc: Global,
    model: &Model,
    near: &Near,
) -> Result<List<NearLine>, NoMemory>
    requires { FitsGraphs near.now model.now.graphs }
    ensures { IfOk result (EachAfter (NearMay (sizes_of model.now)) []) }
{
    let known = first_sets(model.sets);
    let mut lines = List::new(alloc);
    for g in 0..model.graphs.len() {
        push_lines(&mut lines, model, near, &known, g as u32)?;
    }
    Ok(lines)
}

/// The sets with the numbers below a number.
fn first_sets(count: u16) -> SetBits
    requires { count ≤ 512 }
    ensures { HasAllBelow count result }
{
    let mut sets = SetBits::empty();
    for set in 0..count {
        sets = sets.with(set);
    }
    sets
}

/// The lines of a graph.
fn push_lines(
    lines: &mut List<NearLine>,
    model: &Model,
    near: &Near,
    known: &SetBits,
    g: u32,
) -> Result<(), NoMemory>
    requires near { FitsGraphs near.now model.now.graphs }
    requires known { HasAllBelow model.now.sets known.now }
    requires graph { g < length model.now.graphs }
    requires lines { AreLinesBefore (sizes_of model.now) lines.old g 0 }
    ensures { OnOk result (AreLinesBefore (sizes_of model.now) lines.new (g + 1) 0) }
{
    for v in 0..model.graphs.at(g as usize).vertex_count() {
        push_line(lines, g, v, near.at(g, v).meet(known))?;
    }
    Ok(())
}

/// A line, unless it has no set.
fn push_line(lines: &mut List<NearLine>, g: u32, v: u32, sets: SetBits) -> Result<(), NoMemory>
    ensures { OnOk result ((lines.new ≡ lines.old) ⊎ (lines.new ≡ lines.old ++ (g, v, sets) ∷ [])) }
{
    if sets == SetBits::empty() {
        return Ok(());
    }
    lines.push((g, v, sets))
}
