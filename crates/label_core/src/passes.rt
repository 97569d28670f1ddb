ghost use Rattle.std.specs.Prelude.{◌≡◌, ◌<◌, ◌+◌, ◌^◌, ℕ, Some, IfOk, OnOk, MatchOption, ◌++◌, ◌≢◌, cond, length, slice_get, slice_index_or, slice_set, vec_len};
ghost use Rattle.label_core.specs.Tables.{entries_of};
ghost use Rattle.label_core.specs.declared.machine.PassState.{PassState as pass_state};
ghost use Rattle.label_core.specs.Passes.{took, ticketed, over_now, other_half, joined, ended_pass, greater_each};
ghost use Rattle.label_core.specs.Steps.{LivesAt, Draws, Takes, Meets, Backs, Tickets, Splits, Joins};
ghost use Rattle.label_core.specs.Plays.{LivesNot, Decides};

use crate::machine::{Core, PassState};
use path_graph::{List, NoMemory};
use std::alloc::Global;
use std::mem;

/// The pass at a place, if it is not ended.
pub fn living<L>(core: &Core<L>, p: u32) -> Option<&PassState>
    ensures { MatchOption result (LivesNot core.now p) (λ s. LivesAt core.now p s.now) }
{
    if (p as usize) < core.passes.len() {
        let pass = core.passes.at(p as usize);
        if !pass.ended {
            return Some(pass);
        }
    }
    None
}

/// The pass draws a number.
pub fn draw<L: Drop>(core: Core<L>, p: u32) -> Result<Option<Core<L>>, NoMemory>
    ensures { IfOk result (Decides (Draws core p)) }
{
    let Some(pass) = living(&core, p) else {
        return Ok(None);
    };
    if !pass.numbers.is_empty() {
        return Ok(None);
    }
    let mut core = core;
    let mut passes = core.passes.into_vec();
    passes[p as usize].numbers.push(core.numbers)?;
    core.passes = List::from_vec(passes);
    core.numbers = core.numbers.wrapping_add(1);
    Ok(Some(core))
}

/// The pass found a cell taken by another one.
pub fn meet<L: Drop>(core: Core<L>, p: u32, c: u32) -> Result<Option<Core<L>>, NoMemory>
    ensures { IfOk result (Decides (Meets core p c)) }
{
    let Some(pass) = living(&core, p) else {
        return Ok(None);
    };
    if pass.numbers.is_empty() || pass.held.is_some() || c as usize >= core.holders.len() {
        return Ok(None);
    }
    let Some(holder) = *core.holders.at(c as usize) else {
        return Ok(None);
    };
    if holder == p {
        return Ok(None);
    }
    let mut core = core;
    let mut passes = core.passes.into_vec();
    passes[p as usize].meetings.push(c)?;
    core.passes = List::from_vec(passes);
    Ok(Some(core))
}

/// The pass takes a cell that is at home.
pub fn take<L: Drop>(core: Core<L>, p: u32, c: u32) -> Option<Core<L>>
    requires holders { length core.holders ≡ length core.table.cells }
    requires known { (s : pass_state) → LivesAt core p s → length s.known ≡ length core.table.cells }
    requires few { length (entries_of core.table.cells c) < 2 ^ 32 }
    ensures { Decides (Takes core p c) result }
{
    let pass = living(&core, p)?;
    if pass.numbers.is_empty() || pass.held.is_some() || c as usize >= core.holders.len() {
        return None;
    }
    if core.holders.at(c as usize).is_some() {
        return None;
    }
    let mut core = core;
    let size = core.table.cells.at(c as usize).len() as u32;
    let mut passes = core.passes.into_vec();
    hold_cell(&mut passes[p as usize], c, size);
    core.passes = List::from_vec(passes);
    core.holders.set(c as usize, Some(p));
    Some(core)
}

/// The pass holds a cell and knows all its entries.
fn hold_cell(pass: &mut PassState, c: u32, size: u32)
    requires { c < length pass.old.known }
    ensures { pass.new ≡ took c size pass.old }
{
    pass.held = Some(c);
    pass.known.set(c as usize, size);
}

/// The pass gives the cell back that it holds.
pub fn give_back<L: Drop>(core: Core<L>, p: u32) -> Option<Core<L>>
    requires holds { (s : pass_state) (c : ℕ) → LivesAt core p s → s.held ≡ Some c → c < length core.holders }
    ensures { Decides (Backs core p) result }
{
    let pass = living(&core, p)?;
    if pass.ticket {
        return None;
    }
    let c = pass.held?;
    let mut core = core;
    let mut passes = core.passes.into_vec();
    passes[p as usize].held = None;
    core.passes = List::from_vec(passes);
    core.holders.set(c as usize, None);
    Some(core)
}

/// The pass draws a ticket.
pub fn draw_ticket<L: Drop>(core: Core<L>, p: u32) -> Option<Core<L>>
    requires { core.tickets + 1 < 2 ^ 64 }
    ensures { Decides (Tickets core p) result }
{
    let pass = living(&core, p)?;
    let _held = pass.held?;
    if pass.claims.is_empty() || pass.ticket || pass.over {
        return None;
    }
    let below = core.tickets < core.limit as u64;
    let mut core = core;
    let mut passes = core.passes.into_vec();
    note_ticket(&mut passes[p as usize], below);
    core.passes = List::from_vec(passes);
    core.tickets += 1;
    Some(core)
}

/// The pass has the ticket that it drew where it is below the limit, else it is over.
fn note_ticket(pass: &mut PassState, below: bool)
    ensures { pass.new ≡ cond below (ticketed pass.old) (over_now pass.old) }
{
    if below {
        pass.ticket = true;
    } else {
        pass.over = true;
    }
}

/// The pass gives half its weight, rounded down, to a new pass.
pub fn split<L: Drop>(
    alloc: Global,
    core: Core<L>,
    p: u32,
    q: u32,
) -> Result<Option<Core<L>>, NoMemory>
    ensures { IfOk result (Decides (Splits core p q)) }
{
    let Some(pass) = living(&core, p) else {
        return Ok(None);
    };
    if pass.held.is_some() || pass.weight < 2 || q as usize != core.passes.len() {
        return Ok(None);
    }
    let new = half(alloc, pass)?;
    let mut core = core;
    let mut passes = core.passes.into_vec();
    passes[p as usize].weight -= new.weight;
    passes.push(new)?;
    core.passes = List::from_vec(passes);
    Ok(Some(core))
}

/// A new pass with half the weight of another one, rounded down.
fn half(alloc: Global, pass: &PassState) -> Result<PassState, NoMemory>
    ensures { IfOk result (λ new. new ≡ other_half pass.now) }
{
    Ok(PassState {
        weight: pass.weight / 2,
        numbers: List::new(alloc),
        claims: List::new(alloc),
        meetings: List::new(alloc),
        known: pass.known.copy(alloc)?,
        held: None,
        ticket: false,
        over: pass.over,
        ended: false,
    })
}

/// The pass takes over what another one has.
pub fn join<L: Drop>(
    alloc: Global,
    core: Core<L>,
    p: u32,
    q: u32,
) -> Result<Option<Core<L>>, NoMemory>
    requires weights { (s u : pass_state) → p ≢ q → LivesAt core p s → LivesAt core q u → s.weight + u.weight < 2 ^ 32 }
    ensures { IfOk result (Decides (Joins core p q)) }
{
    let Some(first) = living(&core, p) else {
        return Ok(None);
    };
    let Some(second) = living(&core, q) else {
        return Ok(None);
    };
    if p == q || first.held.is_some() || second.held.is_some() {
        return Ok(None);
    }
    let mut core = core;
    let passes = join_two(alloc, core.passes.into_vec(), p as usize, q as usize)?;
    core.passes = List::from_vec(passes);
    Ok(Some(core))
}

/// The passes after one of them took over what another one has.
fn join_two(
    alloc: Global,
    passes: Vec<PassState>,
    p: usize,
    q: usize,
) -> Result<Vec<PassState>, NoMemory>
    requires apart { p ≢ q }
    requires first { p < vec_len passes }
    requires second { q < vec_len passes }
    requires weights { (s u : pass_state) → slice_get passes.items p ≡ Some s
        → slice_get passes.items q ≡ Some u → s.weight + u.weight < 2 ^ 32 }
    ensures { IfOk result (λ v. (s u : pass_state) → slice_get passes.items p ≡ Some s
        → slice_get passes.items q ≡ Some u
        → v.items ≡ slice_set (slice_set passes.items p (joined s u)) q ended_pass) }
{
    let mut passes = passes;
    let other = mem::replace(&mut passes[q], ended_state(alloc));
    take_over(alloc, &mut passes[p], other)?;
    Ok(passes)
}

/// A pass that is ended.
fn ended_state(alloc: Global) -> PassState
    ensures { result ≡ ended_pass }
{
    PassState {
        weight: 0,
        numbers: List::new(alloc),
        claims: List::new(alloc),
        meetings: List::new(alloc),
        known: List::new(alloc),
        held: None,
        ticket: false,
        over: false,
        ended: true,
    }
}

/// The pass has what the other one had.
fn take_over(alloc: Global, pass: &mut PassState, other: PassState) -> Result<(), NoMemory>
    requires weight { pass.old.weight + other.weight < 2 ^ 32 }
    ensures { OnOk result (pass.new ≡ joined pass.old other) }
{
    let known = greater_of_each(alloc, pass.known.as_slice(), other.known.as_slice())?;
    pass.weight += other.weight;
    append(alloc, &mut pass.numbers, other.numbers)?;
    append(alloc, &mut pass.claims, other.claims)?;
    append(alloc, &mut pass.meetings, other.meetings)?;
    pass.known = List::from_vec(known);
    pass.over = pass.over || other.over;
    Ok(())
}

/// Puts the items of another list last.
fn append<T: Drop>(alloc: Global, list: &mut List<T>, more: List<T>) -> Result<(), NoMemory>
    ensures { OnOk result (list.new ≡ list.old ++ more) }
{
    let mut items = mem::replace(list, List::new(alloc)).into_vec();
    let mut more = more.into_vec();
    items.append(&mut more)?;
    *list = List::from_vec(items);
    Ok(())
}

/// The greater number at each index.
#[tactic(auto, using(crate::proofs::MachineLists::greater_more, crate::proofs::MachineLists::greater_all))]
fn greater_of_each(alloc: Global, a: &[u32], b: &[u32]) -> Result<Vec<u32>, NoMemory>
    ensures { IfOk result (λ v. v.items ≡ greater_each a.now b.now) }
{
    let mut all = Vec::new(alloc);
    for i in 0..a.len().max(b.len()) {
        all.push(number_at(a, i).max(number_at(b, i)))?;
    }
    Ok(all)
}

/// The number at an index, or 0 past the end.
pub fn number_at(numbers: &[u32], i: usize) -> u32
    ensures { result ≡ slice_index_or numbers.now i 0 }
{
    if i < numbers.len() { numbers[i] } else { 0 }
}
