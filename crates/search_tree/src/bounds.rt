ghost use Rattle.std.specs.Prelude.{◌≡◌, ◌≢◌, [], MatchOption};
ghost use Rattle.std.specs.Int.{int_min};
ghost use Rattle.open_tree.specs.Open.{opens};
ghost use Rattle.search_tree.specs.Bounds.{IsBoundOf, IsLeastValue};
ghost use Rattle.search_tree.specs.Search.{opens_in};

use crate::places::OpenPlace;
use crate::search::Search;
use made_nodes::MadeNode;
use open_tree::Slot;

/// The lesser of two numbers, where there are two.
fn lesser(least: Option<i64>, value: i64) -> i64
    ensures { MatchOption least (result ≡ value) (λ old. result ≡ int_min old value) }
{
    match least {
        None => value,
        Some(old) => old.min(value),
    }
}

/// The least value of the open places.
fn least_value(slots: &[Slot<OpenPlace, MadeNode>]) -> Option<i64>
    ensures { MatchOption result (opens slots.now ≡ []) (IsLeastValue (opens slots.now)) }
{
    let mut least = None;
    for slot in slots {
        if let Slot::Open(place) = slot {
            least = Some(lesser(least, place.value));
        }
    }
    least
}

/// The least value of the open places, or the cost of the best plan where that is less.
pub fn open_bound(search: &Search) -> i64
    requires { opens_in search.now ≢ [] }
    ensures { IsBoundOf search.now result }
{
    let Some(least) = least_value(search.slots.as_slice()) else {
        return search.z;
    };
    if search.best.is_none() {
        return least;
    }
    least.min(search.z)
}
