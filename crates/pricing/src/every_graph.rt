ghost use Rattle.std.specs.Prelude.{◌≡◌, ◌≤◌, length};
ghost use Rattle.certificate.specs.Sizes.{sizes_of};
ghost use Rattle.pricing.specs.Fields.{PlaceFits, setting_in};
ghost use Rattle.pricing.specs.Outcomes.{IsOutcome};
ghost use Rattle.pricing.specs.Told.{AreAllTold};

use crate::fields::Place;
use crate::graph_table::{OneOut, table_of};
use label_core::Table;
use ng_sets::Near;
use path_graph::List;
use rank1_cuts::Cut;
use route_labels::{Label, ProofTable};
use route_model::{Model, Priced, Spot};
use std::alloc::Global;

/// What comes of the tables of every graph: they are closed, or the table of a graph reached the limit, where `true` tells
/// that of rests.
#[derive(Drop)]
pub enum TablesOut {
    Tables(List<ProofTable>, List<Table<Label>>),
    Wall(u32, bool, Table<Label>),
    Memory,
}

/// The closed table of each graph of a model at a place, with its least reduced cost: of partial walks, and where `both` is
/// true of rests too.
///
/// Beside each stands the table of partial walks as it was filled, with the origin of each entry, from which `cheap_walks`
/// reads walks. A list has at most `limit` labels; where that is no more than the text of a certificate allows, the tables may
/// stand in one. Costs are at the scale of 65,536 to a unit of cost.
pub fn tables(
    alloc: Global,
    model: &Model,
    spot: &Spot,
    priced: &Priced,
    near: &Near,
    cuts: &[Cut],
    y: &[u64],
    both: bool,
    limit: u32,
) -> TablesOut
    requires fit { PlaceFits model.now spot.now priced.now near.now cuts.now y.now }
    requires limit { 1 ≤ limit }
    ensures outcome { IsOutcome (length model.now.graphs) (setting_in model.now spot.now priced.now near.now cuts.now y.now) both limit result }
    ensures told { AreAllTold (sizes_of model.now) (length cuts.now) limit result }
{
    let place = Place {
        model,
        spot,
        priced,
        near,
        cuts,
        y,
    };
    tables_at(alloc, &place, both, limit)
}

/// The same at a place, graph by graph.
fn tables_at(alloc: Global, place: &Place, both: bool, limit: u32) -> TablesOut
    requires fit { PlaceFits place.now.model.now place.now.spot.now place.now.priced.now place.now.near.now place.now.cuts.now place.now.y.now }
    requires limit { 1 ≤ limit }
    ensures outcome { IsOutcome (length place.now.model.now.graphs) (setting_in place.now.model.now place.now.spot.now place.now.priced.now place.now.near.now place.now.cuts.now place.now.y.now) both limit result }
    ensures told { AreAllTold (sizes_of place.now.model.now) (length place.now.cuts.now) limit result }
{
    let mut tables = List::new(alloc);
    let mut filled = List::new(alloc);
    for graph in 0..place.graph_count() {
        match table_of(alloc, place.field(graph), both, limit) {
            OneOut::Memory => return TablesOut::Memory,
            OneOut::Wall(is_backward, table) => return TablesOut::Wall(graph, is_backward, table),
            OneOut::Table(table, made) => {
                if tables.push(table).is_err() || filled.push(made).is_err() {
                    return TablesOut::Memory;
                }
            }
        }
    }
    TablesOut::Tables(tables, filled)
}
