//! A new walk and its number.

ghost use Rattle.std.specs.Prelude.{◌≡◌, ◌<◌, ◌≤◌, IfOk, OnErr, None, length, map};
ghost use Rattle.path_graph.specs.Walk.{IsFeasibleWalk};
ghost use Rattle.route_model.specs.Parts.{graph_in};
ghost use Rattle.column_pool.specs.declared.limits.TheConstants.{MAX_WALK_ARCS};
ghost use Rattle.column_pool.specs.Index.{IsSound, entries_of, number_in};
ghost use Rattle.column_pool.specs.Walks.{IsKept};
ghost use Rattle.column_pool.specs.Changes.{IsPut};

use crate::column::kept_walk;
use crate::index::{Numbers, put_number};
use crate::kept::KeptWalk;
use crate::limits::MAX_WALKS;
use path_graph::NoMemory;
use route_model::Model;
use std::alloc::Global;

/// Adds a walk that is not there, and answers its number.
pub(crate) fn put_walk(
    alloc: Global,
    walks: &mut Vec<KeptWalk>,
    maps: &mut [Numbers],
    model: &Model,
    g: u32,
    arcs: &[u32],
) -> Result<u32, NoMemory>
    requires sound { IsSound (map entries_of maps.old) walks.old.items }
    requires absent { number_in (map entries_of maps.old) g arcs.now ≡ None }
    requires maps { length maps.old ≡ length model.now.graphs }
    requires graph { g < length model.now.graphs }
    requires walk { IsFeasibleWalk (graph_in model.now.graphs g) arcs.now }
    requires few { length arcs.now ≤ MAX_WALK_ARCS }
    ensures put { IfOk result (IsPut model.now walks.old.items walks.new.items g arcs.now) }
    ensures err { OnErr result (walks.new.items ≡ walks.old.items) }
    ensures sound { IsSound (map entries_of maps.new) walks.new.items }
{
    let number = walks.len();
    if number >= MAX_WALKS {
        return Err(NoMemory);
    }
    let kept = kept_walk(alloc, model, g, arcs)?;
    walks.reserve(1)?;
    put_number(alloc, maps, g, arcs, number as u32)?;
    walks.push(kept)?;
    Ok(number as u32)
}
