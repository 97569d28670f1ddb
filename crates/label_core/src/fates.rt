ghost use Rattle.std.specs.Prelude.{◌≡◌, ◌<◌, ◌≤◌, ◌↔◌, ℕ, IsTrue, length, slice_index_or};
ghost use Rattle.label_space.specs.Rules.{Fits, Dominates};
ghost use Rattle.label_core.specs.declared.table.Entry.{Entry as entry};
ghost use Rattle.label_core.specs.declared.table.Place.{Place as place};
ghost use Rattle.label_core.specs.Tables.{StandsAt, entries_of};
ghost use Rattle.label_core.specs.Steps.{Knows, MayNote, MayNoteAll};

use crate::machine::PassState;
use crate::passes::number_at;
use crate::table::{Entry, Fate, Place};
use label_space::Space;
use path_graph::List;

/// Whether the pass knows the entry at a place.
pub fn knows(pass: &PassState, q: Place) -> bool
    ensures { IsTrue result ↔ Knows pass.now q }
{
    q.index < number_at(pass.known.as_slice(), q.cell as usize)
}

/// Whether the entry at a place dominates a label.
pub fn dominates_at<S: Space>(
    space: &S,
    cells: &[List<Entry<S::Label>>],
    q: Place,
    label: &S::Label,
) -> bool
    requires stands { q.index < length (entries_of cells.now q.cell) }
    requires entries { (w : place) (e : entry S.Label) → StandsAt cells.now w e → Fits (S.rules space.now) e.label }
    requires label { Fits (S.rules space.now) label.now }
    ensures { IsTrue result ↔ ((d : entry S.Label) × StandsAt cells.now q d × Dominates (S.rules space.now) d.label label.now) }
{
    let entry = entry_at(cells, q);
    space.dominates(&entry.label, label)
}

/// The entry at a place.
pub fn entry_at<L>(cells: &[List<Entry<L>>], q: Place) -> &Entry<L>
    requires { q.index < length (entries_of cells.now q.cell) }
    ensures { StandsAt cells.now q result.now }
{
    cells[q.cell as usize].at(q.index as usize)
}

/// Whether a fate may be noted for a choice.
pub fn may_note<S: Space>(
    space: &S,
    cells: &[List<Entry<S::Label>>],
    pass: &PassState,
    label: &S::Label,
    n: usize,
    fate: &Fate,
) -> bool
    requires known { (c : ℕ) → slice_index_or pass.now.known c 0 ≤ length (entries_of cells.now c) }
    requires entries { (w : place) (e : entry S.Label) → StandsAt cells.now w e → Fits (S.rules space.now) e.label }
    requires label { Fits (S.rules space.now) label.now }
    ensures { IsTrue result ↔ MayNote (S.rules space.now) cells.now pass.now label.now n fate.now }
{
    if n >= space.degree(label) as usize {
        return false;
    }
    let extension = space.extend(label, n as u32);
    match fate {
        Fate::Void => extension.is_none(),
        Fate::At(q) => {
            let Some(m) = extension else {
                return false;
            };
            knows(pass, *q) && dominates_at(space, cells, *q, &m)
        }
    }
}
