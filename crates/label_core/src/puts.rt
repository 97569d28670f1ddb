ghost use Rattle.std.specs.Prelude.{◌≡◌, ◌≢◌, ◌<◌, ◌≤◌, ◌↔◌, ◌+◌, ◌^◌, ℕ, IsTrue, IfOk, OnOk, ◌++◌, ◌∷◌, [], Option, Some, MatchOption, length, slice_get, slice_set, slice_index_or};
ghost use Rattle.label_space.specs.Rules.{Fits, Extends};
ghost use Rattle.label_core.specs.declared.table.Entry.{Entry as entry};
ghost use Rattle.label_core.specs.declared.table.Place.{Place as place};
ghost use Rattle.label_core.specs.Tables.{StandsAt, entries_of};
ghost use Rattle.label_core.specs.Puts.{CoversNot, EachFits, fresh, put};
ghost use Rattle.label_core.specs.Walks.{origin};
ghost use Rattle.label_core.specs.Tables.{place as place_at};
ghost use Rattle.label_core.specs.declared.table.Fate.TheVariants.{At};
ghost use Rattle.label_core.specs.Passes.{spent, claim};
ghost use Rattle.label_core.specs.Plays.{Decides};
ghost use Rattle.label_core.specs.declared.machine.ClaimState.{ClaimState as claim_state};
ghost use Rattle.label_core.specs.Steps.{MayNoteAll, FitsClaim, MayPutEntry, PutsEntry, PassAt, after_put};
ghost use Rattle.label_core.specs.Rule.{IsRuled};
ghost use Rattle.label_core.specs.declared.machine.Core.{Core as core_of};
ghost use Rattle.label_core.specs.declared.machine.PassState.{PassState as pass_state};

use crate::fates::{entry_at, may_note};
use crate::machine::{ClaimState, Core, PassState};
use crate::marks::{kept_dominator, put_last};
use crate::passes::{give_back, living};
use crate::table::{Entry, Fate, Origin, Place, Table, Turn};
use label_space::Space;
use path_graph::{List, NoMemory};
use std::alloc::Global;

/// The index of the first claim of the entry at a place.
pub fn claim_index(claims: &[ClaimState], q: Place) -> Option<usize>
    ensures { MatchOption result
        ((i : ℕ) (k : claim_state) → slice_get claims.now i ≡ Some k → k.place ≢ q)
        (λ i. (k : claim_state) × (slice_get claims.now i ≡ Some k) × (k.place ≡ q)) }
{
    for i in 0..claims.len() {
        if claims[i].place == q {
            return Some(i);
        }
    }
    None
}

/// Whether each of the fates may be noted, the first for the choice n.
pub fn may_note_all<S: Space>(
    space: &S,
    cells: &[List<Entry<S::Label>>],
    pass: &PassState,
    label: &S::Label,
    n: usize,
    fates: &[Fate],
) -> bool
    requires known { (c : ℕ) → slice_index_or pass.now.known c 0 ≤ length (entries_of cells.now c) }
    requires entries { (w : place) (e : entry S.Label) → StandsAt cells.now w e → Fits (S.rules space.now) e.label }
    requires label { Fits (S.rules space.now) label.now }
    requires few { n + length fates.now < 2 ^ 64 }
    ensures { IsTrue result ↔ MayNoteAll (S.rules space.now) cells.now pass.now label.now n fates.now }
{
    for i in 0..fates.len() {
        let fate = &fates[i];
        if !may_note(space, cells, pass, label, n + i, fate) {
            return false;
        }
    }
    true
}

/// Whether the label is the extension over the next choice of the claim after these fates, and no
/// kept entry of the cell covers it.
pub fn fits_claim<S: Space>(
    space: &S,
    cells: &[List<Entry<S::Label>>],
    c: u32,
    pass: &PassState,
    claim: &ClaimState,
    parent: &S::Label,
    fates: &[Fate],
    label: &S::Label,
) -> bool
    requires known { (c : ℕ) → slice_index_or pass.now.known c 0 ≤ length (entries_of cells.now c) }
    requires entries { (w : place) (e : entry S.Label) → StandsAt cells.now w e → Fits (S.rules space.now) e.label }
    requires parent { Fits (S.rules space.now) parent.now }
    requires within { c < length cells.now }
    requires few { length (entries_of cells.now c) < 2 ^ 32 }
    ensures { IsTrue result
        ↔ FitsClaim (S.rules space.now) cells.now c pass.now claim.now parent.now fates.now label.now }
{
    let n = claim.fates.len();
    let degree = space.degree(parent) as usize;
    if n >= degree || fates.len() >= degree || !space.fits(label) {
        return false;
    }
    if space.cell(label) != c {
        return false;
    }
    if !may_note_all(space, cells, pass, parent, n, fates) {
        return false;
    }
    let entries = cells[c as usize].as_slice();
    extends(space, parent, n + fates.len(), label) && is_uncovered(space, entries, label)
}

/// Whether no kept entry of a cell dominates a label.
fn is_uncovered<S: Space>(space: &S, entries: &[Entry<S::Label>], label: &S::Label) -> bool
    requires label { Fits (S.rules space.now) label.now }
    requires each { EachFits (S.rules space.now) entries.now }
    requires few { length entries.now < 2 ^ 32 }
    ensures { IsTrue result ↔ CoversNot (S.rules space.now) entries.now label.now }
{
    match kept_dominator(space, label, entries) {
        None => true,
        Some(_) => false,
    }
}

/// Whether a label is the extension of another one over a choice.
fn extends<S: Space>(space: &S, parent: &S::Label, k: usize, label: &S::Label) -> bool
    requires parent { Fits (S.rules space.now) parent.now }
    requires label { Fits (S.rules space.now) label.now }
    ensures { IsTrue result ↔ Extends (S.rules space.now) parent.now k label.now }
{
    if k >= space.degree(parent) as usize {
        return false;
    }
    match space.extend(parent, k as u32) {
        None => false,
        Some(m) => space.same(&m, label),
    }
}

/// Where an entry may be put: the cell that the pass holds, its claim of the parent, and the arc.
#[derive(Clone, Copy, Debug)]
pub struct Spot {
    pub cell: u32,
    pub claim: usize,
    pub arc: u32,
}

/// Where an entry with this label may be put by this event, if it may.
pub fn spot_for<S: Space>(
    space: &S,
    core: &Core<S::Label>,
    p: u32,
    q: Place,
    fates: &[Fate],
    label: &S::Label,
) -> Option<Spot>
    requires rule { IsRuled (S.rules space.now) core.now }
    requires limit { core.now.limit < 2 ^ 32 }
    ensures { MatchOption result
        ((y : core_of S.Label) → PutsEntry (S.rules space.now) core.now p q fates.now label.now y → ⊥)
        (λ spot. (s : pass_state) × (k : claim_state) × (e : entry S.Label)
        × MayPutEntry (S.rules space.now) core.now p spot.cell s spot.claim k e fates.now label.now
        × (k.place ≡ q) × (spot.arc ≡ length k.fates + length fates.now)) }
{
    let Some(pass) = living(core, p) else {
        return None;
    };
    let Some(cell) = pass.held else {
        return None;
    };
    let Some(claim) = claim_index(pass.claims.as_slice(), q) else {
        return None;
    };
    if !pass.ticket {
        return None;
    }
    let cells = core.table.cells.as_slice();
    let claimed = pass.claims.at(claim);
    let parent = entry_at(cells, q);
    let degree = space.degree(&parent.label) as usize;
    if !fits_claim(
        space,
        cells,
        cell,
        pass,
        claimed,
        &parent.label,
        fates,
        label,
    ) {
        return None;
    }
    let arc = claimed.fates.len() + fates.len();
    if arc >= degree {
        return None;
    }
    Some(Spot {
        cell,
        claim,
        arc: arc as u32,
    })
}

/// The pass puts an entry into the cell that it holds, over the next choice of a claim.
pub fn put_entry<S: Space>(
    alloc: Global,
    space: &S,
    core: Core<S::Label>,
    p: u32,
    q: Place,
    fates: &[Fate],
    label: &S::Label,
) -> Result<Option<Core<S::Label>>, NoMemory>
    requires rule { IsRuled (S.rules space.now) core }
    requires limit { core.limit < 2 ^ 32 }
    ensures { IfOk result (Decides (PutsEntry (S.rules space.now) core p q fates.now label.now)) }
{
    let Some(spot) = spot_for(space, &core, p, q, fates, label) else {
        return Ok(None);
    };
    let put = put_at(alloc, space, core, p, spot, fates, *label)?;
    Ok(give_back(put, p))
}

/// The core after the entry has come and the ticket is spent, the cell being held still.
fn put_at<S: Space>(
    alloc: Global,
    space: &S,
    core: Core<S::Label>,
    p: u32,
    spot: Spot,
    fates: &[Fate],
    label: S::Label,
) -> Result<Core<S::Label>, NoMemory>
    requires cell { spot.cell < length core.table.cells }
    requires few { length (entries_of core.table.cells spot.cell) + 1 < 2 ^ 32 }
    requires label { Fits (S.rules space.now) label }
    requires each { EachFits (S.rules space.now) (entries_of core.table.cells spot.cell) }
    requires pass { p < length core.passes }
    requires known { (s : pass_state) → PassAt core p s → spot.cell < length s.known }
    requires claim { (s : pass_state) → PassAt core p s → spot.claim < length s.claims }
    requires arc { (s : pass_state) (k : claim_state) → PassAt core p s
        → slice_get s.claims spot.claim ≡ Some k → spot.arc ≡ length k.fates + length fates.now }
    ensures { IfOk result (λ y. (s : pass_state) (k : claim_state) → PassAt core p s
        → slice_get s.claims spot.claim ≡ Some k
        → y ≡ after_put (S.rules space.now) core p spot.cell s spot.claim k fates.now label) }
{
    let mut core = core;
    let size = core.table.cells.at(spot.cell as usize).len() as u32;
    let mut passes = core.passes.into_vec();
    let origin = spend(alloc, &mut passes[p as usize], spot, size, fates)?;
    core.passes = List::from_vec(passes);
    let mut cells = core.table.cells.into_vec();
    put_in_cell(space, spot.cell, child(label, origin), &mut cells)?;
    core.table = Table {
        cells: List::from_vec(cells),
    };
    Ok(core)
}

/// A new entry.
fn child<L>(label: L, origin: Origin) -> Entry<L>
    ensures { result ≡ fresh label (Some origin) }
{
    Entry {
        label,
        origin: Some(origin),
        turn: Turn::Fresh,
        gone: None,
    }
}

/// Puts an entry into a cell.
fn put_in_cell<S: Space>(
    space: &S,
    cell: u32,
    new: Entry<S::Label>,
    cells: &mut Vec<List<Entry<S::Label>>>,
) -> Result<(), NoMemory>
    requires cell { cell < length cells.old.items }
    requires label { Fits (S.rules space.now) new.label }
    requires each { EachFits (S.rules space.now) (entries_of cells.old.items cell) }
    requires few { length (entries_of cells.old.items cell) < 2 ^ 32 }
    ensures { OnOk result (cells.new.items ≡ put (S.rules space.now) cells.old.items cell new) }
{
    put_last(space, cell, new, &mut cells[cell as usize])
}

/// The pass spends its ticket, and the claim notes the fates and the new entry's place. It gives
/// the new entry's origin.
fn spend(
    alloc: Global,
    pass: &mut PassState,
    spot: Spot,
    size: u32,
    fates: &[Fate],
) -> Result<Origin, NoMemory>
    requires known { spot.cell < length pass.old.known }
    requires claim { spot.claim < length pass.old.claims }
    requires size { size + 1 < 2 ^ 32 }
    requires arc { (k : claim_state) → slice_get pass.old.claims spot.claim ≡ Some k
        → spot.arc ≡ length k.fates + length fates.now }
    ensures { IfOk result (λ o. (k : claim_state) → slice_get pass.old.claims spot.claim ≡ Some k
        → (o ≡ origin k.place (length k.fates + length fates.now))
        × (pass.new ≡ spent spot.cell (size + 1) spot.claim
        (claim k.place (k.fates ++ fates.now ++ At (place_at spot.cell size) ∷ [])) pass.old)) }
{
    let claim = pass.claims.at(spot.claim);
    let parent = claim.place;
    let at = Place {
        cell: spot.cell,
        index: size,
    };
    let noted = fates_with_place(alloc, claim.fates.as_slice(), fates, at)?;
    pass.claims.set(
        spot.claim,
        ClaimState {
            place: parent,
            fates: noted,
        },
    );
    pass.ticket = false;
    pass.known.set(spot.cell as usize, size + 1);
    Ok(Origin {
        parent,
        arc: spot.arc,
    })
}

/// The fates of a claim, more fates, and the place of a new entry.
fn fates_with_place(
    alloc: Global,
    fates: &[Fate],
    more: &[Fate],
    at: Place,
) -> Result<List<Fate>, NoMemory>
    ensures { IfOk result (λ list. list ≡ fates.now ++ more.now ++ At at ∷ []) }
{
    let mut all = Vec::from_slice(alloc, fates)?;
    all.extend_from_slice(more)?;
    all.push(Fate::At(at))?;
    Ok(List::from_vec(all))
}
