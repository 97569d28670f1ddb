ghost use Rattle.std.specs.Prelude.{◌≡◌, ◌<◌, ◌+◌, ◌^◌, ◌++◌, ◌∷◌, [], ℕ, IfOk, OnOk, MatchOption, length, slice_get, slice_set};
ghost use Rattle.label_space.specs.Rules.{Fits};
ghost use Rattle.label_core.specs.declared.table.Entry.{Entry};
ghost use Rattle.label_core.specs.Tables.{StandsAt, entries_of};
ghost use Rattle.label_core.specs.Tables.{place as place_at};
ghost use Rattle.label_core.specs.Puts.{fresh, set_at, with_turn, EachFits};
ghost use Rattle.label_core.specs.Puts.{put as put_of};
ghost use Rattle.plain_table.specs.Fillings.{IsFilling, IsExtending, IsAtWall, IsToExtend, IsNotToExtend};

use crate::filling::{Filling, Step};
use label_core::{Entry, Fate, Origin, Place, Turn, kept_dominator, put_last};
use label_space::Space;
use path_graph::{List, NoMemory};
use std::alloc::Global;

/// Extends the entry whose turn it is over each of its choices, where it is kept and fresh.
pub fn work_on_next<S: Space>(
    alloc: Global,
    space: &S,
    limit: u32,
    filling: &mut Filling<S::Label>,
) -> Result<Step, NoMemory>
    requires filling { IsFilling (S.rules space.now) limit filling.old }
    requires within { filling.old.next < length filling.old.order.items }
    ensures went { result ≡ Ok Step.Went → IsFilling (S.rules space.now) limit filling.new }
    ensures wall { result ≡ Ok Step.Wall → IsAtWall (S.rules space.now) limit filling.new }
    ensures next { filling.new.next ≡ filling.old.next + 1 }
{
    let parent = filling.order[filling.next];
    filling.next += 1;
    let Some(label) = label_to_extend(filling.cells.as_slice(), parent) else {
        return Ok(Step::Went);
    };
    extend_over_all(alloc, space, limit, parent, label, filling)
}

/// The label of the entry at a place, where the entry is kept and fresh.
fn label_to_extend<L: Copy>(cells: &[List<Entry<L>>], place: Place) -> Option<L>
    requires { (e : Entry L) × StandsAt cells.now place e }
    ensures { (e : Entry L) → StandsAt cells.now place e
        → MatchOption result (IsNotToExtend e) (IsToExtend e) }
{
    let entry = cells[place.cell as usize].at(place.index as usize);
    if entry.gone.is_some() {
        return None;
    }
    match &entry.turn {
        Turn::Fresh => Some(entry.label),
        Turn::Claimed(_) | Turn::Done(_) => None,
    }
}

/// Extends a label over each of its choices, and notes what became of them.
fn extend_over_all<S: Space>(
    alloc: Global,
    space: &S,
    limit: u32,
    parent: Place,
    label: S::Label,
    filling: &mut Filling<S::Label>,
) -> Result<Step, NoMemory>
    requires { IsExtending (S.rules space.now) limit parent label [] filling.old }
    ensures went { result ≡ Ok Step.Went → IsFilling (S.rules space.now) limit filling.new }
    ensures wall { result ≡ Ok Step.Wall → IsAtWall (S.rules space.now) limit filling.new }
    ensures next { filling.new.next ≡ filling.old.next }
{
    let choices = space.degree(&label);
    let mut fates = Vec::new(alloc);
    for arc in 0..choices {
        let origin = Origin { parent, arc };
        match extend_once(alloc, space, limit, origin, label, &mut fates, filling)? {
            Step::Went => {}
            Step::Wall => return Ok(Step::Wall),
        }
    }
    finish(parent, List::from_vec(fates), filling.cells.as_mut_slice());
    Ok(Step::Went)
}

/// Extends a label over its next choice, and notes what became of it: it is refused, a kept entry
/// dominates it, or it is a new entry.
fn extend_once<S: Space>(
    alloc: Global,
    space: &S,
    limit: u32,
    origin: Origin,
    label: S::Label,
    fates: &mut Vec<Fate>,
    filling: &mut Filling<S::Label>,
) -> Result<Step, NoMemory>
    requires filling { IsExtending (S.rules space.now) limit
        origin.parent label fates.old.items filling.old }
    requires next_choice { length fates.old.items ≡ origin.arc }
    requires within { origin.arc < (S.rules space.now).degree label }
    ensures went { result ≡ Ok Step.Went
        → IsExtending (S.rules space.now) limit origin.parent label fates.new.items filling.new }
    ensures longer { result ≡ Ok Step.Went → length fates.new.items ≡ length fates.old.items + 1 }
    ensures wall { result ≡ Ok Step.Wall → IsAtWall (S.rules space.now) limit filling.new }
    ensures next { filling.new.next ≡ filling.old.next }
{
    let Some(longer) = space.extend(&label, origin.arc) else {
        fates.push(Fate::Void)?;
        return Ok(Step::Went);
    };
    let cell = space.cell(&longer);
    if let Some(index) = kept_dominator(space, &longer, filling.cells[cell as usize].as_slice()) {
        fates.push(Fate::At(Place { cell, index }))?;
        return Ok(Step::Went);
    }
    if filling.order.len() >= limit as usize {
        return Ok(Step::Wall);
    }
    let place = put(space, cell, child(longer, origin), filling)?;
    fates.push(Fate::At(place))?;
    Ok(Step::Went)
}

/// A new entry.
fn child<L>(label: L, origin: Origin) -> Entry<L>
    ensures { result ≡ fresh label (Some origin) }
{
    Entry {
        label,
        origin: Some(origin),
        turn: Turn::Fresh,
        gone: None,
    }
}

/// Puts an entry into a cell, and last into the order.
fn put<S: Space>(
    space: &S,
    cell: u32,
    new: Entry<S::Label>,
    filling: &mut Filling<S::Label>,
) -> Result<Place, NoMemory>
    requires cell { cell < length filling.old.cells.items }
    requires label { Fits (S.rules space.now) new.label }
    requires each { EachFits (S.rules space.now) (entries_of filling.old.cells.items cell) }
    requires few { length (entries_of filling.old.cells.items cell) < 2 ^ 32 }
    ensures cells { OnOk result
        (filling.new.cells.items ≡ put_of (S.rules space.now) filling.old.cells.items cell new) }
    ensures order { IfOk result (λ p. filling.new.order.items ≡ filling.old.order.items ++ p ∷ []) }
    ensures place { IfOk result
        (λ p. p ≡ place_at cell (length (entries_of filling.old.cells.items cell))) }
    ensures next { filling.new.next ≡ filling.old.next }
{
    let slot = &mut filling.cells[cell as usize];
    let place = Place {
        cell,
        index: slot.len() as u32,
    };
    put_last(space, cell, new, slot)?;
    filling.order.push(place)?;
    Ok(place)
}

/// The entry at a place is done, with these fates.
fn finish<L: Drop>(place: Place, fates: List<Fate>, cells: &mut [List<Entry<L>>])
    requires { (e : Entry L) × StandsAt cells.old place e }
    ensures { (e : Entry L) → StandsAt cells.old place e
        → cells.new ≡ set_at cells.old place (with_turn (Turn.Done fates) e) }
{
    let entries = &mut cells[place.cell as usize];
    end_turn(entries, place.index, fates);
}

/// The entry at an index of a cell is done, with these fates.
fn end_turn<L: Drop>(entries: &mut List<Entry<L>>, index: u32, fates: List<Fate>)
    requires { index < length entries.old }
    ensures { (e : Entry L) → slice_get entries.old index ≡ Some e
        → entries.new ≡ slice_set entries.old index (with_turn (Turn.Done fates) e) }
{
    entries.at_mut(index as usize).turn = Turn::Done(fates);
}
