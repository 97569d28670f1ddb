ghost use Rattle.std.specs.Prelude.{◌≡◌, ℕ, ◌≤◌, None, IfOk, false, true, length};
ghost use Rattle.route_model.specs.Fit.{ModelFits};
ghost use Rattle.label_core.specs.Points.{IsSound};
ghost use Rattle.label_core.specs.Tables.{entry_count};
ghost use Rattle.label_core.specs.Walks.{AreDifferentWalks};
ghost use Rattle.label_rules.specs.Leasts.{Form, IsTable};
ghost use Rattle.route_labels.specs.Fit.{FieldFits, PartsAgree};
ghost use Rattle.route_labels.specs.Meaning.{setting_of};
ghost use Rattle.route_labels.specs.Rules.{backward_rules, forward_rules};
ghost use Rattle.route_labels.specs.Tables.{IsBackwardList, IsForwardList, kept_labels};
ghost use Rattle.concatenate.specs.Costs.{IsLeastWith};
ghost use Rattle.certificate.specs.Sizes.{sizes_of};
ghost use Rattle.cert_rules.specs.Meaning.{form_of};
ghost use Rattle.pricing.specs.Outcomes.{IsOneOutcome};
ghost use Rattle.pricing.specs.Tables.{IsSinkCost};
ghost use Rattle.pricing.specs.Told.{IsOneTold};

use crate::filled::{back_filled, fore_filled};
use crate::sink::least_at;
use label_core::Table;
use path_graph::{List, NoMemory};
use plain_table::Filled;
use route_labels::{Field, Form, Label, ProofTable, kept};
use std::alloc::Global;

/// What comes of the table of one graph.
#[derive(Drop)]
pub(crate) enum OneOut {
    Table(ProofTable, Table<Label>),
    Wall(bool, Table<Label>),
    Memory,
}

/// Fills the table of a graph: of partial walks, and where `both` of rests too.
pub(crate) fn table_of(alloc: Global, field: Field, both: bool, limit: u32) -> OneOut
    requires fit { FieldFits field }
    requires model { ModelFits field.model.now }
    requires limit { 1 ≤ limit }
    ensures outcome { IsOneOutcome (setting_of field.entry) field.entry.graph both limit result }
    ensures told { IsOneTold (sizes_of field.entry.model.now) (length field.entry.cuts.now) limit field.entry.graph result }
{
    match fore_filled(alloc, field, limit) {
        Filled::Memory => OneOut::Memory,
        Filled::Wall(made) => OneOut::Wall(false, made),
        Filled::Closed(made) => {
            if both {
                table_with_rests(alloc, field, made, limit)
            } else {
                table_alone(alloc, field, made)
            }
        }
    }
}

/// The table of partial walks alone.
fn table_alone(alloc: Global, field: Field, made: Table<Label>) -> OneOut
    requires fit { FieldFits field }
    requires model { ModelFits field.model.now }
    requires sound { IsSound (forward_rules field None) made.cells }
    requires walks { AreDifferentWalks (forward_rules field None) made.cells }
    requires closed { IsForwardList (setting_of field) None (kept_labels made.cells) }
    ensures outcome { (limit : ℕ) → IsOneOutcome (setting_of field.entry) field.entry.graph false limit result }
    ensures told { (limit : ℕ) → entry_count made.cells ≤ limit
        → IsOneTold (sizes_of field.entry.model.now) (length field.entry.cuts.now) limit field.entry.graph result }
{
    match proof_table(alloc, &field, Form::Full, &made, List::new(alloc)) {
        Ok(table) => OneOut::Table(table, made),
        Err(_) => OneOut::Memory,
    }
}

/// Fills the table of rests beside that of partial walks.
fn table_with_rests(alloc: Global, field: Field, made: Table<Label>, limit: u32) -> OneOut
    requires fit { FieldFits field }
    requires model { ModelFits field.model.now }
    requires few { entry_count made.cells ≤ limit }
    requires limit { 1 ≤ limit }
    requires sound { IsSound (forward_rules field None) made.cells }
    requires walks { AreDifferentWalks (forward_rules field None) made.cells }
    requires closed { IsForwardList (setting_of field) None (kept_labels made.cells) }
    ensures outcome { IsOneOutcome (setting_of field.entry) field.entry.graph true limit result }
    ensures told { IsOneTold (sizes_of field.entry.model.now) (length field.entry.cuts.now) limit field.entry.graph result }
{
    match back_filled(alloc, field, limit) {
        Filled::Memory => OneOut::Memory,
        Filled::Wall(rests) => OneOut::Wall(true, rests),
        Filled::Closed(rests) => table_of_both(alloc, field, made, &rests),
    }
}

/// The two tables together.
fn table_of_both(alloc: Global, field: Field, made: Table<Label>, rests: &Table<Label>) -> OneOut
    requires fit { FieldFits field }
    requires model { ModelFits field.model.now }
    requires sound { IsSound (forward_rules field None) made.cells }
    requires walks { AreDifferentWalks (forward_rules field None) made.cells }
    requires closed { IsForwardList (setting_of field) None (kept_labels made.cells) }
    requires sound_back { IsSound (backward_rules field None) rests.now.cells }
    requires walks_back { AreDifferentWalks (backward_rules field None) rests.now.cells }
    requires closed_back { IsBackwardList (setting_of field) None (kept_labels rests.now.cells) }
    ensures outcome { (limit : ℕ) → IsOneOutcome (setting_of field.entry) field.entry.graph true limit result }
    ensures told { (limit : ℕ) → entry_count made.cells ≤ limit → entry_count rests.now.cells ≤ limit
        → IsOneTold (sizes_of field.entry.model.now) (length field.entry.cuts.now) limit field.entry.graph result }
{
    let Ok(back) = kept(alloc, rests) else {
        return OneOut::Memory;
    };
    match proof_table(alloc, &field, Form::Both, &made, back) {
        Ok(table) => OneOut::Table(table, made),
        Err(_) => OneOut::Memory,
    }
}

/// The lists of a table, with the least cost of a label at the sink.
fn proof_table(
    alloc: Global,
    field: &Field,
    form: Form,
    made: &Table<Label>,
    back: List<Label>,
) -> Result<ProofTable, NoMemory>
    requires { FieldFits field.now }
    ensures agree { IfOk result (λ t. PartsAgree field.now) }
    ensures graph { IfOk result (λ t. t.graph ≡ field.now.graph) }
    ensures form { IfOk result (λ t. t.form ≡ form) }
    ensures fore { IfOk result (λ t. t.fore ≡ kept_labels made.now.cells) }
    ensures back { IfOk result (λ t. t.back ≡ back) }
    ensures least { IfOk result (λ t. IsLeastWith (IsSinkCost (setting_of field.now).graph.ends.sink (kept_labels made.now.cells)) t.least) }
{
    let fore = kept(alloc, made)?;
    let sink = field.path_graph().ends().sink;
    let least = least_at(fore.as_slice(), sink);
    Ok(ProofTable {
        graph: field.graph,
        form,
        least,
        fore,
        back,
    })
}
