ghost use Rattle.std.specs.Prelude.{◌≡◌, ◌≤◌, None};
ghost use Rattle.label_core.specs.Points.{IsSound};
ghost use Rattle.label_core.specs.Tables.{entry_count};
ghost use Rattle.label_core.specs.Walks.{AreDifferentWalks};
ghost use Rattle.plain_table.specs.Outcomes.{EachTable, IfClosed, IfWall, IsFull};
ghost use Rattle.route_labels.specs.Fit.{FieldFits};
ghost use Rattle.route_labels.specs.Meaning.{setting_of};
ghost use Rattle.route_labels.specs.Rules.{backward_rules, forward_rules};
ghost use Rattle.route_labels.specs.Tables.{IsBackwardList, IsForwardList, kept_labels};

use plain_table::{Filled, fill};
use route_labels::{Backward, Field, Forward, Label};
use std::alloc::Global;

/// Fills the table of the labels of partial walks, without a threshold; a closed one has at most `limit` entries.
pub(crate) fn fore_filled(alloc: Global, field: Field, limit: u32) -> Filled<Label>
    requires fit { FieldFits field }
    requires limit { 1 ≤ limit }
    ensures sound { EachTable result (λ t. IsSound (forward_rules field.entry None) t.cells) }
    ensures different { EachTable result (λ t. AreDifferentWalks (forward_rules field.entry None) t.cells) }
    ensures closed { IfClosed result (λ t. IsForwardList (setting_of field.entry) None (kept_labels t.cells)) }
    ensures few { IfClosed result (λ t. entry_count t.cells ≤ limit) }
    ensures wall { IfWall result (λ t. IsFull (forward_rules field.entry None) limit t.cells) }
{
    fill(alloc, &Forward::new(field, None), limit)
}

/// Fills the table of the labels of rests, likewise.
pub(crate) fn back_filled(alloc: Global, field: Field, limit: u32) -> Filled<Label>
    requires fit { FieldFits field }
    requires limit { 1 ≤ limit }
    ensures sound { EachTable result (λ t. IsSound (backward_rules field.entry None) t.cells) }
    ensures different { EachTable result (λ t. AreDifferentWalks (backward_rules field.entry None) t.cells) }
    ensures closed { IfClosed result (λ t. IsBackwardList (setting_of field.entry) None (kept_labels t.cells)) }
    ensures few { IfClosed result (λ t. entry_count t.cells ≤ limit) }
    ensures wall { IfWall result (λ t. IsFull (backward_rules field.entry None) limit t.cells) }
{
    fill(alloc, &Backward::new(field, None), limit)
}
