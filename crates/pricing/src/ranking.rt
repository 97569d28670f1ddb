ghost use Rattle.std.specs.Prelude.{◌≡◌, ◌++◌, IfOk, OnOk};
ghost use Rattle.pricing.specs.Cheap.{AreFirst};
ghost use Rattle.pricing.specs.Ranks.{cheap_from, cheap_in, is_cheap as is_cheap_at, ranked_at as ranked_of};

use label_core::{Entry, Table};
use path_graph::NoMemory;
use route_labels::Label;
use std::alloc::Global;

/// A cheap entry: its cost, and its place by cell and index. Entries are ordered by these, in this order.
#[derive(Clone, Copy, Debug, PartialEq, Eq, PartialOrd, Ord)]
pub(crate) struct Ranked {
    pub cost: i128,
    pub cell: u32,
    pub index: u32,
}

/// The first `k` cheap entries.
pub(crate) fn cheapest(
    alloc: Global,
    sink: u32,
    made: &Table<Label>,
    k: u32,
) -> Result<Vec<Ranked>, NoMemory>
    ensures { IfOk result (λ ranked. AreFirst sink made.now.cells k ranked.items) }
{
    let mut ranked = all_cheap(alloc, sink, made)?;
    ranked.sort()?;
    ranked.truncate(k as usize);
    Ok(ranked)
}

/// All cheap entries, in the order of their places.
fn all_cheap(alloc: Global, sink: u32, made: &Table<Label>) -> Result<Vec<Ranked>, NoMemory>
    ensures { IfOk result (λ ranked. ranked.items ≡ cheap_from sink 0 made.now.cells) }
{
    let mut ranked = Vec::new(alloc);
    for (cell, entries) in made.cells.as_slice().iter().enumerate() {
        push_cheap(&mut ranked, sink, number(cell)?, entries.as_slice())?;
    }
    Ok(ranked)
}

/// Appends the cheap entries of a cell.
fn push_cheap(
    ranked: &mut Vec<Ranked>,
    sink: u32,
    cell: u32,
    entries: &[Entry<Label>],
) -> Result<(), NoMemory>
    ensures { OnOk result (ranked.new.items ≡ ranked.old.items ++ cheap_in sink cell 0 entries.now) }
{
    for (index, entry) in entries.iter().enumerate() {
        if is_cheap(sink, entry) {
            ranked.push(ranked_at(entry, cell, number(index)?))?;
        }
    }
    Ok(())
}

/// An entry with its place.
fn ranked_at(entry: &Entry<Label>, cell: u32, index: u32) -> Ranked
    ensures { result ≡ ranked_of cell index entry.now }
{
    Ranked {
        cost: entry.label.cost,
        cell,
        index,
    }
}

/// Whether an entry is kept, stands at the sink and costs less than nothing.
fn is_cheap(sink: u32, entry: &Entry<Label>) -> bool
    ensures { result ≡ is_cheap_at sink entry.now }
{
    entry.gone.is_none() && entry.label.vertex == sink && entry.label.cost < 0
}

/// A place as a number of 32 bits; a table that is too large for that is out of memory.
pub(crate) fn number(place: usize) -> Result<u32, NoMemory>
    ensures { IfOk result (λ number. number ≡ place) }
{
    match u32::try_from(place) {
        Ok(number) => Ok(number),
        Err(_) => Err(NoMemory),
    }
}
