//! Whether a proof keeps what the check of it takes for granted.

ghost use Rattle.std.specs.Prelude.{◌≡◌, ◌↔◌, ℕ, ◌<◌, ◌≤◌, ◌+◌, ◌^◌, All, IsTrue, length, slice_index};
ghost use Rattle.std.specs.List.Sorted.{IsStrictlyIncreasing};
ghost use Rattle.path_graph.specs.Within.{IsWithin};
ghost use Rattle.safe_bound.specs.Promise.{IsLeastNear};
ghost use Rattle.proof_check.specs.Keeps.{IsKnown, LabelKeeps, ListKeeps, ProofKeeps, TableKeeps, graphs_of};

use certificate::Proof;
use path_graph::SetBits;
use route_labels::{Label, ProofTable};
use route_model::Model;
use test_places::fitting::{cuts_fit, mult_fits};

/// Whether a proof keeps lengths, ranges, known numbers and the order of its tables.
pub fn proof_keeps(model: &Model, proof: &Proof) -> bool
    ensures { IsTrue result → ProofKeeps model.now proof.now }
{
    let cuts = proof.cuts.as_slice();
    let tables = proof.tables.as_slice();
    if !mult_fits(model, &proof.mult) || !cuts_fit(cuts, &proof.mult) {
        return false;
    }
    if !lines_keep(model, proof.near.as_slice()) || !tables_ascend(tables) {
        return false;
    }
    tables_keep(model.graphs.len(), cuts.len(), tables)
}

fn line_keeps(model: &Model, line: &(u32, u32, SetBits)) -> bool
    ensures { IsTrue result → IsKnown model.now line.now }
{
    let (g, v, _) = *line;
    if g as usize >= model.graphs.len() {
        return false;
    }
    v < model.graphs.at(g as usize).vertex_count()
}

fn lines_keep(model: &Model, lines: &[(u32, u32, SetBits)]) -> bool
    ensures { IsTrue result → All (IsKnown model.now) lines.now }
{
    lines.iter().all(|line| line_keeps(model, line))
}

fn are_in_order(tables: &[ProofTable], k: usize) -> bool
    requires { k + 1 < length tables.now }
    ensures { IsTrue result → slice_index (graphs_of tables.now) k < slice_index (graphs_of tables.now) (k + 1) }
{
    if tables[k].graph >= tables[k + 1].graph {
        return false;
    }
    true
}

fn tables_ascend(tables: &[ProofTable]) -> bool
    ensures { IsTrue result → IsStrictlyIncreasing (graphs_of tables.now) }
{
    let last = tables.len().saturating_sub(1);
    for k in 0..last {
        if !are_in_order(tables, k) {
            return false;
        }
    }
    true
}

fn tables_keep(graphs: usize, cuts: usize, tables: &[ProofTable]) -> bool
    ensures { IsTrue result → All (TableKeeps graphs cuts) tables.now }
{
    tables.iter().all(|table| table_keeps(graphs, cuts, table))
}

fn table_keeps(graphs: usize, cuts: usize, table: &ProofTable) -> bool
    ensures { IsTrue result → TableKeeps graphs cuts table.now }
{
    if table.graph as usize >= graphs || !is_least_near(table.least) {
        return false;
    }
    list_keeps(cuts, table.fore.as_slice()) && list_keeps(cuts, table.back.as_slice())
}

fn is_least_near(least: Option<i128>) -> bool
    ensures { IsTrue result → IsLeastNear least }
{
    match least {
        None => true,
        Some(least) => is_near(least),
    }
}

fn is_near(cost: i128) -> bool
    ensures { IsTrue result ↔ IsWithin (2 ^ 112) cost }
{
    -(1 << 112) <= cost && cost <= 1 << 112
}

fn label_keeps(cuts: usize, label: &Label) -> bool
    ensures { IsTrue result → LabelKeeps cuts label.now }
{
    is_near(label.cost) && are_unused_from(&label.states, cuts)
}

fn list_keeps(cuts: usize, labels: &[Label]) -> bool
    ensures { IsTrue result → ListKeeps cuts labels.now }
{
    labels.iter().all(|label| label_keeps(cuts, label))
}

/// Whether the states from a number on are 0.
fn are_unused_from(states: &[u8; 64], first: usize) -> bool
    ensures { IsTrue result → (i : ℕ) → i < 64 → first ≤ i → slice_index states.now i ≡ 0 }
{
    for i in 0..64 {
        if first <= i && states[i] != 0 {
            return false;
        }
    }
    true
}
