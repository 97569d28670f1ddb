//! Marks of entries: one is claimed, done, or gone.

ghost use Rattle.std.specs.Prelude.{◌≡◌, ◌≢◌, ◌<◌, ◌≤◌, ◌↔◌, ◌+◌, ◌%◌, ◌^◌, ◌++◌, ℕ, IsTrue, IfOk, OnOk, MatchOption, length, slice_get, slice_set};
ghost use Rattle.label_core.specs.declared.table.Entry.{Entry as entry};
ghost use Rattle.label_core.specs.declared.table.Place.{Place as place};
ghost use Rattle.label_core.specs.declared.table.Turn.TheVariants.{Fresh as FreshTurn};
ghost use Rattle.label_core.specs.Tables.{StandsAt, entries_of};
ghost use Rattle.label_core.specs.Puts.{set_at, with_turn, gone_by};
ghost use Rattle.label_core.specs.declared.machine.Core.{Core as core_of};
ghost use Rattle.label_core.specs.declared.machine.PassState.{PassState as pass_state};
ghost use Rattle.label_core.specs.declared.machine.ClaimState.{ClaimState as claim_state};
ghost use Rattle.label_core.specs.Passes.{claimed, finished};
ghost use Rattle.label_core.specs.Plays.{HoldsNot, Decides};
ghost use Rattle.label_core.specs.Rule.{IsRuled};
ghost use Rattle.label_core.specs.Steps.{HoldsAt, claim_number as number_of, Claims, Finishes, Erases, MayFinish, MayErase, Marks, MarksAll, PutsMarks};

use crate::fates::{entry_at, knows};
use crate::machine::{ClaimState, Core, Mark, PassState};
use crate::passes::{give_back, living};
use crate::puts::{claim_index, may_note_all};
use crate::table::{Entry, Fate, Place, Turn};
use label_space::Space;
use path_graph::{List, NoMemory};
use std::alloc::Global;
use std::mem;

/// The numbers of claims stay below this.
const CLAIM_NUMBERS: u64 = 1 << 32;

/// The pass at a place, if it is not ended and holds this cell.
pub fn holder<L>(core: &Core<L>, p: u32, c: u32) -> Option<&PassState>
    ensures { MatchOption result ((s : pass_state) → HoldsAt core.now p s c → ⊥)
        (λ s. HoldsAt core.now p s.now c) }
{
    let pass = living(core, p)?;
    match pass.held {
        Some(held) if held == c => Some(pass),
        _ => None,
    }
}

/// The entry at a place, if one stands there.
pub fn entry_if_any<L>(core: &Core<L>, q: Place) -> Option<&Entry<L>>
    ensures { MatchOption result ((e : entry L) → StandsAt core.now.table.cells q e → ⊥)
        (λ e. StandsAt core.now.table.cells q e.now) }
{
    let cells = core.table.cells.as_slice();
    if q.cell as usize >= cells.len() {
        return None;
    }
    if q.index as usize >= cells[q.cell as usize].len() {
        return None;
    }
    Some(entry_at(cells, q))
}

/// The number that an entry carries from now on which the pass claims.
fn claim_number(pass: &PassState) -> u32
    ensures { result ≡ number_of pass.now }
{
    if pass.numbers.is_empty() {
        return 0;
    }
    (*pass.numbers.at(0) % CLAIM_NUMBERS) as u32
}

/// Gives the entry at a place another turn.
fn set_turn<L>(cells: &mut List<List<Entry<L>>>, q: Place, turn: Turn)
    requires { q.index < length (entries_of cells.old q.cell) }
    ensures { (e : entry L) → StandsAt cells.old q e
        → cells.new ≡ set_at cells.old q (with_turn turn e) }
{
    cells.at_mut(q.cell as usize).at_mut(q.index as usize).turn = turn;
}

/// Marks the entry at a place gone by the one at another.
fn set_gone<L>(cells: &mut List<List<Entry<L>>>, q: Place, by: Place)
    requires { q.index < length (entries_of cells.old q.cell) }
    ensures { (e : entry L) → StandsAt cells.old q e
        → cells.new ≡ set_at cells.old q (gone_by by e) }
{
    cells.at_mut(q.cell as usize).at_mut(q.index as usize).gone = Some(by);
}

/// Whether an entry is fresh and not gone.
fn is_claimable<L>(entry: &Entry<L>) -> bool
    ensures { IsTrue result ↔ ((entry.now.turn ≡ FreshTurn) × (entry.now.gone ≡ None)) }
{
    match &entry.turn {
        Turn::Fresh => entry.gone.is_none(),
        Turn::Claimed(_) | Turn::Done(_) => false,
    }
}

/// The pass has one claim more, without fates.
fn note_claim(alloc: Global, q: Place, pass: &mut PassState) -> Result<(), NoMemory>
    ensures { OnOk result (pass.new ≡ claimed q pass.old) }
{
    pass.claims.push(ClaimState {
        place: q,
        fates: List::new(alloc),
    })
}

/// The pass claims the entry at a place of the cell that it holds.
pub fn claim_entry<L: Drop>(
    alloc: Global,
    core: Core<L>,
    p: u32,
    q: Place,
) -> Result<Option<Core<L>>, NoMemory>
    ensures { IfOk result (Decides (Claims core p q)) }
{
    let Some(pass) = holder(&core, p, q.cell) else {
        return Ok(None);
    };
    let number = claim_number(pass);
    let Some(entry) = entry_if_any(&core, q) else {
        return Ok(None);
    };
    if !is_claimable(entry) {
        return Ok(None);
    }
    let mut core = core;
    let mut passes = core.passes.into_vec();
    note_claim(alloc, q, &mut passes[p as usize])?;
    core.passes = List::from_vec(passes);
    set_turn(&mut core.table.cells, q, Turn::Claimed(number));
    Ok(Some(core))
}

/// The index of the claim by which the pass may be done with the entry at a place, these fates
/// being the last, if there is one.
fn claim_to_finish<S: Space>(
    space: &S,
    core: &Core<S::Label>,
    p: u32,
    q: Place,
    fates: &[Fate],
) -> Option<usize>
    requires { IsRuled (S.rules space.now) core.now }
    ensures { MatchOption result
        ((y : core_of S.Label) → Finishes (S.rules space.now) core.now p q fates.now y → ⊥)
        (λ i. (s : pass_state) × HoldsAt core.now p s q.cell × (e : entry S.Label) × (k : claim_state)
        × MayFinish (S.rules space.now) core.now s q e i k fates.now) }
{
    let Some(pass) = holder(core, p, q.cell) else {
        return None;
    };
    let Some(entry) = entry_if_any(core, q) else {
        return None;
    };
    let Some(claim) = claim_index(pass.claims.as_slice(), q) else {
        return None;
    };
    let claimed = pass.claims.at(claim);
    let noted = claimed.fates.len();
    let degree = space.degree(&entry.label) as usize;
    if noted > degree {
        return None;
    }
    if fates.len() != degree - noted {
        return None;
    }
    let cells = core.table.cells.as_slice();
    if !may_note_all(space, cells, pass, &entry.label, noted, fates) {
        return None;
    }
    Some(claim)
}

/// The pass has this claim no more. Gives its fates and then these.
fn end_claim(
    alloc: Global,
    claim: usize,
    fates: &[Fate],
    pass: &mut PassState,
) -> Result<List<Fate>, NoMemory>
    requires { claim < length pass.old.claims }
    ensures { IfOk result (λ all. (k : claim_state) → slice_get pass.old.claims claim ≡ Some k
        → (all ≡ k.fates ++ fates.now) × (pass.new ≡ finished claim pass.old)) }
{
    let mut claims = mem::replace(&mut pass.claims, List::new(alloc)).into_vec();
    let ended = claims.remove(claim);
    pass.claims = List::from_vec(claims);
    let mut all = ended.fates.into_vec();
    all.extend_from_slice(fates)?;
    Ok(List::from_vec(all))
}

/// The pass is done with the entry at a place of the cell that it holds.
pub fn finish_entry<S: Space>(
    alloc: Global,
    space: &S,
    core: Core<S::Label>,
    p: u32,
    q: Place,
    fates: &[Fate],
) -> Result<Option<Core<S::Label>>, NoMemory>
    requires { IsRuled (S.rules space.now) core }
    ensures { IfOk result (Decides (Finishes (S.rules space.now) core p q fates.now)) }
{
    let Some(claim) = claim_to_finish(space, &core, p, q, fates) else {
        return Ok(None);
    };
    let mut core = core;
    let mut passes = core.passes.into_vec();
    let done = end_claim(alloc, claim, fates, &mut passes[p as usize])?;
    core.passes = List::from_vec(passes);
    set_turn(&mut core.table.cells, q, Turn::Done(done));
    Ok(Some(core))
}

/// Whether two places are different.
fn is_apart(q: Place, w: Place) -> bool
    ensures { IsTrue result ↔ (q ≢ w) }
{
    q != w
}

/// Whether an entry is kept, if it stands in the cell of another one.
fn is_kept_beside<L>(q: Place, w: Place, other: &Entry<L>) -> bool
    ensures { IsTrue result ↔ (w.cell ≡ q.cell → other.now.gone ≡ None) }
{
    if w.cell != q.cell {
        return true;
    }
    other.gone.is_none()
}

/// Whether the pass may mark the entry at a place gone by the one at another.
fn may_erase<S: Space>(space: &S, core: &Core<S::Label>, p: u32, q: Place, by: Place) -> bool
    requires { IsRuled (S.rules space.now) core.now }
    ensures { IsTrue result ↔ ((s : pass_state) × HoldsAt core.now p s q.cell
        × (e d : entry S.Label) × MayErase (S.rules space.now) core.now s q by e d) }
{
    let Some(pass) = holder(core, p, q.cell) else {
        return false;
    };
    let Some(entry) = entry_if_any(core, q) else {
        return false;
    };
    let Some(other) = entry_if_any(core, by) else {
        return false;
    };
    if !is_apart(q, by) || !knows(pass, by) || !is_kept_beside(q, by, other) {
        return false;
    }
    space.dominates(&other.label, &entry.label)
}

/// The pass marks the entry at a place of the cell that it holds gone by another one.
pub fn erase_entry<S: Space>(
    space: &S,
    core: Core<S::Label>,
    p: u32,
    q: Place,
    by: Place,
) -> Option<Core<S::Label>>
    requires { IsRuled (S.rules space.now) core }
    ensures { Decides (Erases (S.rules space.now) core p q by) result }
{
    if !may_erase(space, &core, p, q, by) {
        return None;
    }
    let mut core = core;
    set_gone(&mut core.table.cells, q, by);
    Some(core)
}

/// The pass marks an entry of the cell that it holds.
fn make_mark<S: Space>(
    alloc: Global,
    space: &S,
    core: Core<S::Label>,
    p: u32,
    c: u32,
    mark: &Mark,
) -> Result<Option<Core<S::Label>>, NoMemory>
    requires { IsRuled (S.rules space.now) core }
    ensures { IfOk result (Decides (Marks (S.rules space.now) core p c mark.now)) }
{
    match mark {
        Mark::Claim(index) => {
            let at = Place {
                cell: c,
                index: *index,
            };
            claim_entry(alloc, core, p, at)
        }
        Mark::Done(index, fates) => {
            let at = Place {
                cell: c,
                index: *index,
            };
            finish_entry(alloc, space, core, p, at, fates.as_slice())
        }
        Mark::Gone(index, by) => {
            let at = Place {
                cell: c,
                index: *index,
            };
            Ok(erase_entry(space, core, p, at, *by))
        }
    }
}

/// The pass makes these marks, in order, in the cell that it holds.
fn make_marks<S: Space>(
    alloc: Global,
    space: &S,
    core: Core<S::Label>,
    p: u32,
    c: u32,
    marks: &[Mark],
) -> Result<Option<Core<S::Label>>, NoMemory>
    requires { IsRuled (S.rules space.now) core }
    ensures { IfOk result (Decides (MarksAll (S.rules space.now) core p c marks.now)) }
{
    let mut made = core;
    for i in 0..marks.len() {
        let Some(next) = make_mark(alloc, space, made, p, c, &marks[i])? else {
            return Ok(None);
        };
        made = next;
    }
    Ok(Some(made))
}

/// The cell that a pass holds which is not ended.
fn held_cell<L>(core: &Core<L>, p: u32) -> Option<u32>
    ensures { MatchOption result (HoldsNot core.now p) (λ c. (s : pass_state) × HoldsAt core.now p s c) }
{
    let Some(pass) = living(core, p) else {
        return None;
    };
    pass.held
}

/// The pass makes these marks, in order, and gives the cell back that it holds.
pub fn put_marks<S: Space>(
    alloc: Global,
    space: &S,
    core: Core<S::Label>,
    p: u32,
    marks: &[Mark],
) -> Result<Option<Core<S::Label>>, NoMemory>
    requires { IsRuled (S.rules space.now) core }
    ensures { IfOk result (Decides (PutsMarks (S.rules space.now) core p marks.now)) }
{
    let Some(cell) = held_cell(&core, p) else {
        return Ok(None);
    };
    let Some(made) = make_marks(alloc, space, core, p, cell, marks)? else {
        return Ok(None);
    };
    Ok(give_back(made, p))
}
