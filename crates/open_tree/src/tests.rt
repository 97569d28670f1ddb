//! Trees of five slots at most, worked out by hand.

ghost use Rattle.std.specs.Prelude.{All, IsTrue};
ghost use Rattle.open_tree.specs.Slots.{IsSmall};

use crate::pruning::{Tested, prune};
use crate::putting::put;
use crate::slots::{Slot, first_open, made_count, made_nodes};
use std::process::Abort;
use std::test::Fail;

/// Slots with their first open place and the number of their made nodes.
fn check_slots<R: Abort>(rt: &R, slots: &[Slot<u32, u32>], first: Option<usize>, made: usize) {
    assert_eq!(rt; first_open(slots), first, "{slots:?}");
    assert_eq!(rt; made_count(slots), made, "{slots:?}");
}

#[test]
fn finds_the_first_open_place_and_counts_nodes(rt: HostRuntime) -> Result<(), Fail> {
    check_slots(&rt, [].as_slice(), None, 0);
    check_slots(&rt, [Slot::Open(7)].as_slice(), Some(0), 0);
    check_slots(&rt, [Slot::Made(1), Slot::Made(2)].as_slice(), None, 2);
    check_slots(
        &rt,
        [Slot::Made(1), Slot::Open(7), Slot::Open(8)].as_slice(),
        Some(1),
        1,
    );
    Ok(())
}

#[test]
fn gives_the_made_nodes_in_order(rt: HostRuntime) -> Result<(), Fail> {
    let alloc = rt.alloc();
    let slots = vec![in alloc; Slot::Made(3), Slot::Open(7), Slot::Made(1), Slot::Open(8)]?;
    let nodes = made_nodes(alloc, slots)?;
    assert_eq!(rt; nodes.as_slice(), [3, 1].as_slice());
    Ok(())
}

#[test]
fn puts_a_tree_in_an_open_place(rt: HostRuntime) -> Result<(), Fail> {
    let alloc = rt.alloc();
    let slots = vec![in alloc; Slot::Made(1), Slot::Open(7), Slot::Open(8)]?;
    let nodes = vec![in alloc; 2, 3]?;
    let rest = vec![in alloc; 6, 5]?;
    let new = put(alloc, slots, 1, nodes, rest)?;
    let expected = [
        Slot::Made(1),
        Slot::Made(2),
        Slot::Made(3),
        Slot::Open(5),
        Slot::Open(6),
        Slot::Open(8),
    ];
    assert_eq!(rt; new.as_slice(), expected.as_slice());
    Ok(())
}

/// A made node that opened so many items, and of whose trees the first ones go.
fn tested(node: u32, children: usize, skip: usize) -> Tested<u32, u32> {
    Tested {
        slot: Slot::Made(node),
        children,
        skip,
    }
}

fn is_small(tested: &Tested<u32, u32>) -> bool
    ensures { IsTrue result → IsSmall tested.now }
{
    tested.children <= 2 && tested.skip <= 2
}

/// Whether `prune` may be called.
fn are_small(list: &[Tested<u32, u32>]) -> bool
    ensures { IsTrue result → All IsSmall list.now }
{
    list.iter().all(|tested| is_small(tested))
}

/// The root splits; its first child splits again, and closes its item by now.
#[test]
fn leaves_out_what_is_below_a_closed_item(rt: HostRuntime) -> Result<(), Fail> {
    let alloc = rt.alloc();
    let list = vec![in alloc;
        tested(1, 2, 0),
        tested(2, 2, 2),
        tested(3, 0, 0),
        tested(4, 0, 0),
        tested(5, 0, 0),
    ]?;
    if !are_small(list.as_slice()) {
        return Err(Fail::new("three trees below a node"));
    }
    let kept = prune(alloc, list)?;
    let expected = [Slot::Made(1), Slot::Made(2), Slot::Made(5)];
    assert_eq!(rt; kept.as_slice(), expected.as_slice());
    Ok(())
}
