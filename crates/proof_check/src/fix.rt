ghost use Rattle.std.specs.Prelude.{◌↔◌, ◌<◌, IsTrue, Some, length};
ghost use Rattle.route_model.specs.Parts.{graph_in};
ghost use Rattle.label_rules.specs.Leasts.{AreAllAbove};
ghost use Rattle.proof_rules.specs.Nodes.{IsFixed};
ghost use Rattle.proof_rules.specs.Proofs.{AreBoth};
ghost use Rattle.proof_check.specs.Checked.{IsProved, proof_in, setting_in, table_in};

use crate::bound::limit_at;
use crate::lists::{back_labels, fore_labels};
use crate::proved::Proved;
use concatenate::all_joins_above;

/// Whether an arc, by its graph and number, may be dropped against z: it is there, and each join over it costs more than the
/// limit of a walk.
pub fn is_fixed(at: &Proved, arc: (u32, u32), z: i64) -> bool
    requires proved { IsProved at.now }
    requires both { AreBoth at.now.model.now (proof_in at.now) }
    ensures { IsTrue result ↔ IsFixed at.now.model.now z at.now.spot.now (proof_in at.now) arc }
{
    let model = at.model;
    let (g, a) = arc;
    if g as usize >= model.graphs.len() || a >= model.graphs.at(g as usize).arc_count() {
        return false;
    }
    match limit_at(at, g, z) {
        None => true,
        Some(limit) => is_above(at, g, a, limit),
    }
}

/// Whether each join over an arc of a graph costs more than a limit.
fn is_above(at: &Proved, g: u32, a: u32, limit: i128) -> bool
    requires proved { IsProved at.now }
    requires both { AreBoth at.now.model.now (proof_in at.now) }
    requires graph { g < length at.now.model.now.graphs }
    requires arc { a < length (graph_in at.now.model.now.graphs g).arcs }
    ensures { IsTrue result ↔ AreAllAbove (setting_in at.now g) (table_in at.now g).fore (table_in at.now g).back (Some limit) a }
{
    all_joins_above(
        &at.field(g),
        fore_labels(at, g),
        a,
        back_labels(at, g),
        limit,
    )
}
