ghost use Rattle.std.specs.Prelude.{◌≡◌, ◌≤◌, IfOk};
ghost use Rattle.label_core.specs.Points.{IsSound};
ghost use Rattle.label_core.specs.Walks.{AreDifferentWalks};
ghost use Rattle.label_core.specs.Fates.{HasFates};
ghost use Rattle.plain_table.specs.Outcomes.{EachTable, IfClosed, IfWall, IsWhole, IsFull, IsOutcome};

use crate::filling::{Filling, Step, opened};
use crate::steps::work_on_next;
use label_core::Table;
use label_space::Space;
use path_graph::{List, NoMemory};
use std::alloc::Global;

/// How filling a table ended.
#[derive(Debug, Drop)]
pub enum Filled<L> {
    /// Each kept entry is done: nothing is missing.
    Closed(Table<L>),
    /// The limit is reached, and there is one label more.
    Wall(Table<L>),
    /// Out of memory.
    Memory,
}

/// The table of a space, with at most so many entries.
///
/// The labels are extended in the order in which they came. The time grows as the number of
/// extensions times the entries of a cell.
pub fn fill<S: Space>(alloc: Global, space: &S, limit: u32) -> Filled<S::Label>
    requires { 1 ≤ limit }
    ensures sound { EachTable result (λ t. IsSound (S.rules space.now) t.cells) }
    ensures walks { EachTable result (λ t. AreDifferentWalks (S.rules space.now) t.cells) }
    ensures fates { EachTable result (λ t. HasFates (S.rules space.now) t.cells) }
    ensures closed { IfClosed result (λ t. IsWhole (S.rules space.now) limit t.cells) }
    ensures wall { IfWall result (λ t. IsFull (S.rules space.now) limit t.cells) }
{
    match fill_from_root(alloc, space, limit) {
        Ok(filled) => filled,
        Err(NoMemory) => Filled::Memory,
    }
}

/// Fills a table from the root on.
fn fill_from_root<S: Space>(
    alloc: Global,
    space: &S,
    limit: u32,
) -> Result<Filled<S::Label>, NoMemory>
    requires { 1 ≤ limit }
    ensures { IfOk result (IsOutcome (S.rules space.now) limit) }
{
    let mut filling = opened(alloc, space, limit)?;
    while filling.next < filling.order.len() {
        match work_on_next(alloc, space, limit, &mut filling)? {
            Step::Went => {}
            Step::Wall => return Ok(Filled::Wall(table_of(filling))),
        }
    }
    Ok(Filled::Closed(table_of(filling)))
}

/// The table as it is filled so far.
fn table_of<L: Drop>(filling: Filling<L>) -> Table<L>
    ensures { result.cells ≡ filling.cells.items }
{
    let Filling {
        cells,
        order: _,
        next: _,
    } = filling;
    Table {
        cells: List::from_vec(cells),
    }
}
