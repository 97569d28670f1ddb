use crate::table::{Fate, Place, Table};
use path_graph::List;

/// An entry that a pass works on, and the fates of its choices noted so far.
#[derive(Debug, Drop)]
pub struct ClaimState {
    pub place: Place,
    pub fates: List<Fate>,
}

/// One actor: its share of the weight, the numbers that it drew, its claims, the cells at which
/// it met another pass, how many entries it knows of each cell, and the cell that it holds.
#[derive(Debug, Drop)]
pub struct PassState {
    pub weight: u32,
    pub numbers: List<u64>,
    pub claims: List<ClaimState>,
    pub meetings: List<u32>,
    pub known: List<u32>,
    pub held: Option<u32>,
    pub ticket: bool,
    pub over: bool,
    pub ended: bool,
}

/// A table, who holds each of its cells, the counters, and the passes.
#[derive(Debug, Drop)]
pub struct Core<L> {
    pub table: Table<L>,
    pub holders: List<Option<u32>>,
    pub numbers: u64,
    pub tickets: u64,
    pub limit: u32,
    pub weight: u32,
    pub passes: List<PassState>,
}

/// A change of the entry with this index in the held cell.
#[derive(Debug, Drop)]
pub enum Mark {
    Claim(u32),
    Done(u32, List<Fate>),
    Gone(u32, Place),
}

/// What one pass does. A new pass has the next place among the passes.
#[derive(Debug, Drop)]
pub enum Event<L> {
    Draw(u32),
    Take(u32, u32),
    Meet(u32, u32),
    Back(u32),
    PutEntry(u32, Place, List<Fate>, L),
    PutMarks(u32, List<Mark>),
    Ticket(u32),
    Split(u32, u32),
    Join(u32, u32),
}
