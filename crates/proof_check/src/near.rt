ghost use Rattle.std.specs.Prelude.{◌≡◌, ◌≢◌, ℕ, ◌<◌, All, IfOk, length};
ghost use Rattle.ng_sets.specs.Near.{FitsGraphs, HasShape, graph_at, near_at};
ghost use Rattle.cert_rules.specs.Meaning.{near_lists, near_sets};
ghost use Rattle.proof_check.specs.Keeps.{IsKnown};
ghost use Rattle.proof_check.specs.NearParts.{AreNear, nothing_near, IsClearedAt};

use ng_sets::Near;
use path_graph::{NoMemory, SetBits};
use route_model::Model;
use std::alloc::Global;

/// The near lists of a proof by graph and vertex: nothing is near a vertex without a line, and of two lines the first counts.
pub fn near_of(
    alloc: Global,
    model: &Model,
    lines: &[(u32, u32, SetBits)],
) -> Result<Near, NoMemory>
    requires { All (IsKnown model.now) lines.now }
    ensures { IfOk result (λ near. near ≡ near_lists model.now lines.now) }
{
    let mut near = Near::new(alloc, model.graphs.as_slice())?;
    clear_all(&mut near, model);
    put_all(&mut near, model, lines);
    Ok(near)
}

/// Puts nothing near each vertex.
fn clear_all(near: &mut Near, model: &Model)
    requires { FitsGraphs near.old model.now.graphs }
    ensures { AreNear model.now near.new nothing_near }
{
    for g in 0..model.graphs.len() {
        clear(near, g as u32, model.graphs.at(g).vertex_count());
    }
}

/// Puts nothing near each vertex of a graph.
fn clear(near: &mut Near, g: u32, count: u32)
    requires graph { g < length near.old }
    requires count { length (graph_at near.old g) ≡ count }
    ensures shape { HasShape near.old near.new }
    ensures cleared { IsClearedAt near.new g count }
    ensures others { (h w : ℕ) → h ≢ g → near_at near.new h w ≡ near_at near.old h w }
{
    for v in 0..count {
        near.put(g, v, SetBits::empty());
    }
}

/// Puts the sets of each line near its vertex, from the last line back.
fn put_all(near: &mut Near, model: &Model, lines: &[(u32, u32, SetBits)])
    requires lines { All (IsKnown model.now) lines.now }
    requires nothing { AreNear model.now near.old nothing_near }
    ensures { AreNear model.now near.new (near_sets lines.now) }
{
    let mut left = lines.len();
    while 0 < left {
        left -= 1;
        let (g, v, sets) = lines[left];
        near.put(g, v, sets);
    }
}
