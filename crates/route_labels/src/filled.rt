ghost use Rattle.std.specs.Prelude.{◌≡◌, ◌≤◌, ◌++◌, None, IfOk, OnOk};
ghost use Rattle.label_core.specs.Points.{IsSound};
ghost use Rattle.label_core.specs.Walks.{AreDifferentWalks};
ghost use Rattle.plain_table.specs.Outcomes.{EachTable, IfClosed, IfWall, IsFull};
ghost use Rattle.route_labels.specs.Fit.{FieldFits};
ghost use Rattle.route_labels.specs.Meaning.{setting_of};
ghost use Rattle.route_labels.specs.Rules.{backward_rules, forward_rules};
ghost use Rattle.route_labels.specs.Tables.{ClosedTableLaw, HasRests, HasWalks, IsBackwardList, IsForwardList, kept_in, kept_labels};

use crate::backward::Backward;
use crate::field::Field;
use crate::forward::Forward;
use label_core::{Entry, Table};
use label_rules::Label;
use path_graph::{List, NoMemory};
use plain_table::{Filled, fill};
use std::alloc::Global;

/// Fills the table of the labels of partial walks, with at most so many entries.
///
/// Without a threshold a closed table has a label at the sink for each admitted walk, at no greater cost; with one it is the
/// forward list of a half pair.
pub fn forward_table(alloc: Global, field: Field, top: Option<i32>, limit: u32) -> Filled<Label>
    requires fit { FieldFits field }
    requires limit { 1 ≤ limit }
    ensures sound { EachTable result (λ t. IsSound (forward_rules field.entry top) t.cells) }
    ensures different { EachTable result (λ t. AreDifferentWalks (forward_rules field.entry top) t.cells) }
    ensures closed { IfClosed result (λ t. IsForwardList (setting_of field.entry) top (kept_labels t.cells)) }
    ensures walks { top ≡ None → IfClosed result (λ t. HasWalks (setting_of field.entry) (kept_labels t.cells)) }
    ensures wall { IfWall result (λ t. IsFull (forward_rules field.entry top) limit t.cells) }
{
    fill(alloc, &Forward::new(field, top), limit)
}

/// Fills the table of the labels of rests, with at most so many entries.
///
/// Without a threshold a closed table dominates the label of each rest; with one it is the backward list of a half pair.
pub fn backward_table(alloc: Global, field: Field, above: Option<i32>, limit: u32) -> Filled<Label>
    requires fit { FieldFits field }
    requires limit { 1 ≤ limit }
    ensures sound { EachTable result (λ t. IsSound (backward_rules field.entry above) t.cells) }
    ensures different { EachTable result (λ t. AreDifferentWalks (backward_rules field.entry above) t.cells) }
    ensures closed { IfClosed result (λ t. IsBackwardList (setting_of field.entry) above (kept_labels t.cells)) }
    ensures rests { above ≡ None → IfClosed result (λ t. HasRests (setting_of field.entry) (kept_labels t.cells)) }
    ensures wall { IfWall result (λ t. IsFull (backward_rules field.entry above) limit t.cells) }
{
    fill(alloc, &Backward::new(field, above), limit)
}

/// In a table whose kept labels are closed, however it was filled, the list of these is closed.
pub fn closed_tables_are_closed_lists()
    ensures { ClosedTableLaw }
{}

/// The labels of the kept entries of a table, cell by cell.
pub fn kept(alloc: Global, table: &Table<Label>) -> Result<List<Label>, NoMemory>
    ensures { IfOk result (λ labels. labels ≡ kept_labels table.now.cells) }
{
    let mut labels = Vec::new(alloc);
    for entries in table.cells.as_slice() {
        push_kept(&mut labels, entries.as_slice())?;
    }
    Ok(List::from_vec(labels))
}

/// Appends the labels of the kept entries of a cell.
fn push_kept(labels: &mut Vec<Label>, entries: &[Entry<Label>]) -> Result<(), NoMemory>
    ensures { OnOk result (labels.new.items ≡ labels.old.items ++ kept_in entries.now) }
{
    for entry in entries {
        if entry.gone.is_none() {
            labels.push(entry.label)?;
        }
    }
    Ok(())
}
