//! Copies of cores.

ghost use Rattle.std.specs.Prelude.{◌≡◌, IfOk};

use crate::machine::{ClaimState, Core, PassState};
use crate::table::{Entry, Table, Turn};
use path_graph::{List, NoMemory};
use std::alloc::Global;

/// A value that can be copied where there is memory for it.
pub trait TryCopy {
    /// An equal value.
    fn try_copy(&self, alloc: Global) -> Result<Self, NoMemory>
        ensures { IfOk result (λ copy. copy ≡ self.now) };
}

impl<T: TryCopy + Drop> TryCopy for List<T> {
    fn try_copy(&self, alloc: Global) -> Result<List<T>, NoMemory> {
        let mut items = Vec::new(alloc);
        for i in 0..self.len() {
            items.push(self.at(i).try_copy(alloc)?)?;
        }
        Ok(List::from_vec(items))
    }
}

impl TryCopy for Turn {
    fn try_copy(&self, alloc: Global) -> Result<Turn, NoMemory> {
        match self {
            Turn::Fresh => Ok(Turn::Fresh),
            Turn::Claimed(number) => Ok(Turn::Claimed(*number)),
            Turn::Done(fates) => Ok(Turn::Done(fates.copy(alloc)?)),
        }
    }
}

impl<L: Copy> TryCopy for Entry<L> {
    fn try_copy(&self, alloc: Global) -> Result<Entry<L>, NoMemory> {
        Ok(Entry {
            label: self.label,
            origin: self.origin,
            turn: self.turn.try_copy(alloc)?,
            gone: self.gone,
        })
    }
}

impl TryCopy for ClaimState {
    fn try_copy(&self, alloc: Global) -> Result<ClaimState, NoMemory> {
        Ok(ClaimState {
            place: self.place,
            fates: self.fates.copy(alloc)?,
        })
    }
}

impl TryCopy for PassState {
    fn try_copy(&self, alloc: Global) -> Result<PassState, NoMemory> {
        Ok(PassState {
            weight: self.weight,
            numbers: self.numbers.copy(alloc)?,
            claims: self.claims.try_copy(alloc)?,
            meetings: self.meetings.copy(alloc)?,
            known: self.known.copy(alloc)?,
            held: self.held,
            ticket: self.ticket,
            over: self.over,
            ended: self.ended,
        })
    }
}

impl<L: Copy + Drop> TryCopy for Core<L> {
    fn try_copy(&self, alloc: Global) -> Result<Core<L>, NoMemory> {
        Ok(Core {
            table: Table {
                cells: self.table.cells.try_copy(alloc)?,
            },
            holders: self.holders.copy(alloc)?,
            numbers: self.numbers,
            tickets: self.tickets,
            limit: self.limit,
            weight: self.weight,
            passes: self.passes.try_copy(alloc)?,
        })
    }
}
