ghost use Rattle.std.specs.Prelude.{◌≡◌, ℕ, ◌≤◌, ◌≤ℤ◌, All, IfOk, Some};
ghost use Rattle.path_graph.specs.Fit.{int_at};
ghost use Rattle.path_graph.specs.Walk.{root_of};
ghost use Rattle.label_core.specs.Points.{IsSound};
ghost use Rattle.label_core.specs.Walks.{AreDifferentWalks};
ghost use Rattle.route_labels.specs.Fit.{FieldFits};
ghost use Rattle.route_labels.specs.Meaning.{setting_of};
ghost use Rattle.route_labels.specs.Rules.{backward_rules, forward_rules};
ghost use Rattle.route_labels.specs.Tables.{IsBackwardList, IsForwardList, kept_labels};
ghost use Rattle.concatenate.specs.Costs.{IsJoinCost, IsLeastWith};
ghost use Rattle.concatenate.specs.Fit.{MayJoin};
ghost use Rattle.label_rules.specs.declared.table.Form.{Form};
ghost use Rattle.pricing.specs.Halves.{IsHalfOutcome};

use concatenate::least_join;
use label_core::Table;
use path_graph::{NoMemory, root_values};
use plain_table::Filled;
use route_labels::{Field, Form, Label, ProofTable, backward_table, forward_table, kept};
use std::alloc::Global;

/// The tables of a half pair as they were filled: of partial walks up to its threshold, and of rests above it.
#[derive(Drop)]
pub struct HalfPair {
    pub fore: Table<Label>,
    pub back: Table<Label>,
}

/// What comes of the half pair of one graph.
#[derive(Drop)]
pub(crate) enum HalfOut {
    Pair(ProofTable, HalfPair),
    Wall(bool, Table<Label>),
    Memory,
}

/// Fills the half pair of a graph, with this threshold, or with the first value at the source where it is below that.
pub(crate) fn half_of(alloc: Global, field: Field, top: i32, limit: u32) -> HalfOut
    requires fit { FieldFits field }
    requires limit { 1 ≤ limit }
    ensures { IsHalfOutcome (setting_of field.entry) field.entry.graph limit result }
{
    let threshold = threshold_of(&field, top);
    match forward_table(alloc, field, Some(threshold), limit) {
        Filled::Memory => HalfOut::Memory,
        Filled::Wall(fore) => HalfOut::Wall(false, fore),
        Filled::Closed(fore) => half_with_rests(alloc, field, threshold, fore, limit),
    }
}

/// A threshold that is at least the first value at the source.
fn threshold_of(field: &Field, top: i32) -> i32
    requires { FieldFits field.now }
    ensures { int_at (root_of (setting_of field.now).graph).at 0 ≤ℤ result }
{
    top.max(root_values(field.path_graph()).at[0])
}

/// Fills the table of rests beside that of partial walks.
fn half_with_rests(
    alloc: Global,
    field: Field,
    threshold: i32,
    fore: Table<Label>,
    limit: u32,
) -> HalfOut
    requires fit { FieldFits field }
    requires limit { 1 ≤ limit }
    requires from { int_at (root_of (setting_of field).graph).at 0 ≤ℤ threshold }
    requires sound { IsSound (forward_rules field (Some threshold)) fore.cells }
    requires walks { AreDifferentWalks (forward_rules field (Some threshold)) fore.cells }
    requires closed { IsForwardList (setting_of field) (Some threshold) (kept_labels fore.cells) }
    ensures { IsHalfOutcome (setting_of field.entry) field.entry.graph limit result }
{
    match backward_table(alloc, field, Some(threshold), limit) {
        Filled::Memory => HalfOut::Memory,
        Filled::Wall(back) => HalfOut::Wall(true, back),
        Filled::Closed(back) => paired(alloc, field, threshold, HalfPair { fore, back }),
    }
}

/// The two tables together.
fn paired(alloc: Global, field: Field, threshold: i32, pair: HalfPair) -> HalfOut
    requires fit { FieldFits field }
    requires from { int_at (root_of (setting_of field).graph).at 0 ≤ℤ threshold }
    requires sound { IsSound (forward_rules field (Some threshold)) pair.fore.cells }
    requires walks { AreDifferentWalks (forward_rules field (Some threshold)) pair.fore.cells }
    requires closed { IsForwardList (setting_of field) (Some threshold) (kept_labels pair.fore.cells) }
    requires sound_back { IsSound (backward_rules field (Some threshold)) pair.back.cells }
    requires walks_back { AreDifferentWalks (backward_rules field (Some threshold)) pair.back.cells }
    requires closed_back { IsBackwardList (setting_of field) (Some threshold) (kept_labels pair.back.cells) }
    ensures { (limit : ℕ) → IsHalfOutcome (setting_of field.entry) field.entry.graph limit result }
{
    let _graph = field.path_graph();
    match half_table(alloc, &field, threshold, &pair) {
        Ok(table) => HalfOut::Pair(table, pair),
        Err(_) => HalfOut::Memory,
    }
}

/// The lists of a half pair, with the least cost of a join.
fn half_table(
    alloc: Global,
    field: &Field,
    threshold: i32,
    pair: &HalfPair,
) -> Result<ProofTable, NoMemory>
    requires fit { FieldFits field.now }
    requires fore { All (MayJoin (setting_of field.now)) (kept_labels pair.now.fore.cells) }
    requires back { All (MayJoin (setting_of field.now)) (kept_labels pair.now.back.cells) }
    ensures graph { IfOk result (λ t. t.graph ≡ field.now.graph) }
    ensures form { IfOk result (λ t. t.form ≡ Form.Half threshold) }
    ensures fore { IfOk result (λ t. t.fore ≡ kept_labels pair.now.fore.cells) }
    ensures back { IfOk result (λ t. t.back ≡ kept_labels pair.now.back.cells) }
    ensures least { IfOk result (λ t. IsLeastWith (IsJoinCost (setting_of field.now) (kept_labels pair.now.fore.cells) (kept_labels pair.now.back.cells)) t.least) }
{
    let fore = kept(alloc, &pair.fore)?;
    let back = kept(alloc, &pair.back)?;
    let least = least_join(field, fore.as_slice(), back.as_slice());
    Ok(ProofTable {
        graph: field.graph,
        form: Form::Half(threshold),
        least,
        fore,
        back,
    })
}
