//! The open places of a search, and which of them is taken next.

ghost use Rattle.std.specs.Prelude.{◌≡◌, [], MatchOption};
ghost use Rattle.open_tree.specs.Open.{opens};
ghost use Rattle.open_tree.specs.Slots.{IsOpenAt};
ghost use Rattle.solve_run.specs.Chosen.{IsFirstLess, IsLeastOpen};
ghost use Rattle.solve_run.specs.Rounds.{HasOpenAt};

use made_nodes::MadeNode;
use open_tree::Slot;
use search_tree::OpenPlace;

/// The place that is open there.
pub(crate) fn place_at(slots: &[Slot<OpenPlace, MadeNode>], at: usize) -> &OpenPlace
    requires { HasOpenAt slots.now at }
    ensures { IsOpenAt slots.now at result.now }
{
    match &slots[at] {
        Slot::Open(place) => place,
        Slot::Made(_) => unreachable!(),
    }
}

/// An open place by its number, with its value.
#[derive(Clone, Copy)]
struct Candidate {
    at: usize,
    value: i64,
}

/// The first of the least of two places, where there are two.
fn first_less(least: Option<Candidate>, at: usize, value: i64) -> Candidate
    ensures { IsFirstLess least at value result }
{
    match least {
        Some(old) if old.value <= value => old,
        _ => Candidate { at, value },
    }
}

/// The open place of the least value, the first of several; none exactly where no place is open.
pub(crate) fn least_open(slots: &[Slot<OpenPlace, MadeNode>]) -> Option<usize>
    ensures { MatchOption result (opens slots.now ≡ []) (IsLeastOpen slots.now) }
{
    let mut least = None;
    for (at, slot) in slots.iter().enumerate() {
        if let Slot::Open(place) = slot {
            least = Some(first_less(least, at, place.value));
        }
    }
    match least {
        Some(found) => Some(found.at),
        None => None,
    }
}
