//! The index of a pool: walks are looked up by their graph and arcs.

ghost use Rattle.std.specs.Prelude.{◌≡◌, ℕ, ◌<◌, [], List, All, IfOk, OnErr, OnOk, Some, length, map, ◌&&◌, ◌==◌, if◌then◌else◌};
ghost use Rattle.std.specs.Str.{bytes_eq};
ghost use Rattle.column_pool.specs.Index.{entries_of, number_in};

use path_graph::NoMemory;
use std::alloc::Global;
use std::collections::BTreeMap;

/// For one graph, the numbers of walks by their arcs.
pub(crate) type Numbers = BTreeMap<Vec<u32>, u32>;

/// A map for each graph, without walks.
pub(crate) fn empty_maps(alloc: Global, count: usize) -> Result<Vec<Numbers>, NoMemory>
    ensures len { IfOk result (λ maps. length maps.items ≡ count) }
    ensures empty { IfOk result (λ maps. All (λ numbers. entries_of numbers ≡ []) maps.items) }
{
    let mut maps = Vec::new(alloc);
    for _ in 0..count {
        maps.push(BTreeMap::new(alloc))?;
    }
    Ok(maps)
}

/// The number of a walk, if it is there.
pub(crate) fn number_of(maps: &[Numbers], g: u32, arcs: &[u32]) -> Option<u32>
    requires { g < length maps.now }
    ensures { result ≡ number_in (map entries_of maps.now) g arcs.now }
{
    maps[g as usize].get(arcs).copied()
}

/// Gives a walk that is not there a number.
pub(crate) fn put_number(
    alloc: Global,
    maps: &mut [Numbers],
    g: u32,
    arcs: &[u32],
    number: u32,
) -> Result<(), NoMemory>
    requires { g < length maps.old }
    ensures ok { OnOk result ((h : ℕ) (path : List ℕ) → number_in (map entries_of maps.new) h path
        ≡ (if (h == g) && bytes_eq path arcs.now then Some number else number_in (map entries_of maps.old) h path)) }
    ensures err { OnErr result (map entries_of maps.new ≡ map entries_of maps.old) }
{
    let key = Vec::from_slice(alloc, arcs)?;
    maps[g as usize].insert(key, number)?;
    Ok(())
}
