ghost use Rattle.std.specs.Prelude.{◌≡◌, ◌+◌, ◌<◌, ◌≤◌, length};
ghost use Rattle.model_text.specs.Draft.{sections_of};
ghost use Rattle.model_text.specs.Totals.{arc_total};
ghost use Rattle.model_text.specs.LineKinds.{kind_of, may_stand, passes_limit};

use crate::draft::{Draft, Section, Stage};
use path_graph::MAX_ARCS;
use route_model::{MAX_ALL_ARCS, MAX_GRAPHS, MAX_ROWS, MAX_VARS};

/// The kinds of lines of a model text.
#[derive(Clone, Copy, Debug, PartialEq, Eq)]
pub enum LineKind {
    Version,
    Var,
    Row,
    Sets,
    Graph,
    Vertex,
    Arc,
    End,
}

/// The kind of a line with this first word.
pub fn kind_of(first: &[u8]) -> Option<LineKind>
    ensures { result ≡ kind_of first.now }
{
    if first == b"vrpmodel".as_slice() {
        Some(LineKind::Version)
    } else if first == b"var".as_slice() {
        Some(LineKind::Var)
    } else if first == b"row".as_slice() {
        Some(LineKind::Row)
    } else if first == b"sets".as_slice() {
        Some(LineKind::Sets)
    } else if first == b"graph".as_slice() {
        Some(LineKind::Graph)
    } else if first == b"vertex".as_slice() {
        Some(LineKind::Vertex)
    } else if first == b"arc".as_slice() {
        Some(LineKind::Arc)
    } else if first == b"end".as_slice() {
        Some(LineKind::End)
    } else {
        None
    }
}

/// Whether a line of this kind may stand here.
pub fn may_stand(kind: LineKind, stage: Stage) -> bool
    ensures { result ≡ may_stand kind stage }
{
    match kind {
        LineKind::Version => false,
        LineKind::Var => matches!(stage, Stage::Variables),
        LineKind::Row | LineKind::Sets => matches!(stage, Stage::Variables | Stage::Rows),
        LineKind::Vertex => matches!(stage, Stage::Vertices),
        LineKind::Arc => matches!(stage, Stage::Arcs),
        LineKind::Graph | LineKind::End => matches!(
            stage,
            Stage::Variables | Stage::Rows | Stage::Sets | Stage::Arcs
        ),
    }
}

/// How many graphs there are.
fn graph_count(draft: &Draft) -> usize
    requires { length (sections_of draft.now) ≤ MAX_GRAPHS }
    ensures { result ≡ length (sections_of draft.now) }
{
    if draft.stage.is_in_graph() {
        draft.done.len() + 1
    } else {
        draft.done.len()
    }
}

fn arcs_of_done(sections: &[Section]) -> usize
    requires { arc_total sections.now ≤ MAX_ALL_ARCS }
    ensures { result ≡ arc_total sections.now }
{
    sections.iter().map(|section| section.arcs.len()).sum()
}

/// How many arcs all graphs have.
fn arc_count(draft: &Draft) -> usize
    requires { arc_total (sections_of draft.now) ≤ MAX_ALL_ARCS }
    ensures { result ≡ arc_total (sections_of draft.now) }
{
    let done = arcs_of_done(draft.done.as_slice());
    if draft.stage.is_in_graph() {
        done + draft.current.arcs.len()
    } else {
        done
    }
}

/// Whether one more line of this kind passes a limit.
pub fn passes_limit(kind: LineKind, draft: &Draft) -> bool
    requires graphs { length (sections_of draft.now) ≤ MAX_GRAPHS }
    requires arcs { arc_total (sections_of draft.now) ≤ MAX_ALL_ARCS }
    ensures { result ≡ passes_limit kind draft.now }
{
    match kind {
        LineKind::Var => draft.vars.len() >= MAX_VARS,
        LineKind::Row => draft.rows.len() >= MAX_ROWS,
        LineKind::Graph => graph_count(draft) >= MAX_GRAPHS,
        LineKind::Arc => {
            draft.current.arcs.len() >= MAX_ARCS || arc_count(draft) as u64 >= MAX_ALL_ARCS
        }
        _ => false,
    }
}
