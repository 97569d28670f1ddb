ghost use Rattle.std.specs.Prelude.{◌≡◌, ◌↔◌, ◌<◌, ◌^◌, IsTrue, length, map, OnOk, MatchOption};
ghost use Rattle.label_space.specs.Rules.{Fits, Dominates};
ghost use Rattle.label_core.specs.Tables.{IsKept};
ghost use Rattle.label_core.specs.Puts.{beside, put_into, EachFits, CoversAt, CoversNot};

use crate::table::{Entry, Place};
use label_space::Space;
use path_graph::{List, NoMemory};

/// The index of a kept entry of a cell that dominates a label.
///
/// The time grows as the entries of the cell.
pub fn kept_dominator<S: Space>(
    space: &S,
    label: &S::Label,
    entries: &[Entry<S::Label>],
) -> Option<u32>
    requires label { Fits (S.rules space.now) label.now }
    requires each { EachFits (S.rules space.now) entries.now }
    requires few { length entries.now < 2 ^ 32 }
    ensures { MatchOption result (CoversNot (S.rules space.now) entries.now label.now)
        (CoversAt (S.rules space.now) entries.now label.now) }
{
    for i in 0..entries.len() {
        if covers(space, &entries[i], label) {
            return Some(i as u32);
        }
    }
    None
}

/// Whether an entry is kept and dominates a label.
fn covers<S: Space>(space: &S, entry: &Entry<S::Label>, label: &S::Label) -> bool
    requires entry { Fits (S.rules space.now) entry.now.label }
    requires label { Fits (S.rules space.now) label.now }
    ensures { IsTrue result
        ↔ (IsKept entry.now × Dominates (S.rules space.now) entry.now.label label.now) }
{
    entry.gone.is_none() && space.dominates(&entry.label, label)
}

/// Marks every kept entry of a cell that the label dominates as dominated by the entry at this place.
///
/// The time grows as the entries of the cell.
pub fn mark_dominated<S: Space>(
    space: &S,
    label: &S::Label,
    at: Place,
    entries: &mut List<Entry<S::Label>>,
)
    requires label { Fits (S.rules space.now) label.now }
    requires each { EachFits (S.rules space.now) entries.old }
    ensures { entries.new ≡ map (beside (S.rules space.now) label.now at) entries.old }
{
    for i in 0..entries.len() {
        mark_if(space, label, at, entries.at_mut(i));
    }
}

/// Marks the entry as dominated by the entry at the place, where it is kept and the label dominates it.
fn mark_if<S: Space>(space: &S, label: &S::Label, at: Place, entry: &mut Entry<S::Label>)
    requires label { Fits (S.rules space.now) label.now }
    requires entry { Fits (S.rules space.now) entry.old.label }
    ensures { entry.new ≡ beside (S.rules space.now) label.now at entry.old }
{
    if entry.gone.is_none() && space.dominates(label, &entry.label) {
        entry.gone = Some(at);
    }
}

/// Appends an entry to a cell, and marks the kept ones that it dominates.
///
/// Where memory for it is refused, the entries may be marked already.
pub fn put_last<S: Space>(
    space: &S,
    cell: u32,
    new: Entry<S::Label>,
    entries: &mut List<Entry<S::Label>>,
) -> Result<(), NoMemory>
    requires label { Fits (S.rules space.now) new.label }
    requires each { EachFits (S.rules space.now) entries.old }
    requires few { length entries.old < 2 ^ 32 }
    ensures { OnOk result (entries.new ≡ put_into (S.rules space.now) entries.old cell new) }
{
    let at = Place {
        cell,
        index: entries.len() as u32,
    };
    mark_dominated(space, &new.label, at, entries);
    entries.push(new)
}
