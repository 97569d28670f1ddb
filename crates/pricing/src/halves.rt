ghost use Rattle.std.specs.Prelude.{◌≡◌, ◌≤◌, length};
ghost use Rattle.pricing.specs.Fields.{PlaceFits, setting_in};
ghost use Rattle.pricing.specs.Halves.{IsHalvesOutcome};

use crate::fields::Place;
use crate::half_table::{HalfOut, HalfPair, half_of};
use label_core::Table;
use ng_sets::Near;
use path_graph::List;
use rank1_cuts::Cut;
use route_labels::{Label, ProofTable};
use route_model::{Model, Priced, Spot};
use std::alloc::Global;

/// What comes of the half pairs of every graph: they are closed, or a table of a graph reached the limit, where `true` tells
/// that of rests.
#[derive(Drop)]
pub enum HalvesOut {
    Halves(List<ProofTable>, List<HalfPair>),
    Wall(u32, bool, Table<Label>),
    Memory,
}

/// The half pair of each graph of a model at a place, with the least reduced cost of its joins.
///
/// `tops` has the thresholds of the graphs, on the first main resource; one that is below the first value at the source is
/// raised to it. A half pair often has several times fewer labels than a whole table, where its threshold is about the middle
/// of what the labels use; its walks come from joins (`joined_walks`). A list has at most `limit` labels.
pub fn half_tables(
    alloc: Global,
    model: &Model,
    spot: &Spot,
    priced: &Priced,
    near: &Near,
    cuts: &[Cut],
    y: &[u64],
    tops: &[i32],
    limit: u32,
) -> HalvesOut
    requires fit { PlaceFits model.now spot.now priced.now near.now cuts.now y.now }
    requires tops { length tops.now ≡ length model.now.graphs }
    requires limit { 1 ≤ limit }
    ensures { IsHalvesOutcome (length model.now.graphs) (setting_in model.now spot.now priced.now near.now cuts.now y.now) limit result }
{
    let place = Place {
        model,
        spot,
        priced,
        near,
        cuts,
        y,
    };
    halves_at(alloc, &place, tops, limit)
}

/// The same at a place, graph by graph.
fn halves_at(alloc: Global, place: &Place, tops: &[i32], limit: u32) -> HalvesOut
    requires fit { PlaceFits place.now.model.now place.now.spot.now place.now.priced.now place.now.near.now place.now.cuts.now place.now.y.now }
    requires tops { length tops.now ≡ length place.now.model.now.graphs }
    requires limit { 1 ≤ limit }
    ensures { IsHalvesOutcome (length place.now.model.now.graphs) (setting_in place.now.model.now place.now.spot.now place.now.priced.now place.now.near.now place.now.cuts.now place.now.y.now) limit result }
{
    let mut tables = List::new(alloc);
    let mut pairs = List::new(alloc);
    for graph in 0..place.graph_count() {
        match half_of(alloc, place.field(graph), tops[graph as usize], limit) {
            HalfOut::Memory => return HalvesOut::Memory,
            HalfOut::Wall(is_backward, table) => return HalvesOut::Wall(graph, is_backward, table),
            HalfOut::Pair(table, pair) => {
                if tables.push(table).is_err() || pairs.push(pair).is_err() {
                    return HalvesOut::Memory;
                }
            }
        }
    }
    HalvesOut::Halves(tables, pairs)
}
