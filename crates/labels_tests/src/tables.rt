//! What comes of filling, how links lead, and how entries came, row by row. The expected values
//! are worked out by hand.

ghost use Rattle.std.specs.Prelude.{◌≤◌, IfSome, IfOk};
ghost use Rattle.label_core.specs.Tables.{StandsAt};
ghost use Rattle.label_core.specs.Walks.{HasOrigins};

use crate::ladder::Ladder;
use crate::numbers::Numbers;
use label_core::{Entry, Place, Table, walk_of};
use label_space::Space;
use path_graph::{List, NoMemory};
use plain_table::{Filled, fill};
use std::alloc::Global;
use std::test::Fail;

/// The cell, the degree and the level of a label, and whether it is the root.
fn told<S: Space>(space: &S, label: &S::Label) -> Option<(u32, u32, i64, bool)> {
    if !space.fits(label) {
        return None;
    }
    let is_root = space.same(label, &space.root());
    Some((
        space.cell(label),
        space.degree(label),
        space.level(label),
        is_root,
    ))
}

#[test]
fn labels(rt: HostRuntime) -> Result<(), Fail> {
    for (name, got, wanted) in [
        (
            "the first number",
            told(&Numbers, &1),
            Some((1, 2, 1, true)),
        ),
        (
            "the last that has choices",
            told(&Numbers, &63),
            Some((3, 2, 63, false)),
        ),
        (
            "the first that has none",
            told(&Numbers, &64),
            Some((0, 0, 64, false)),
        ),
        ("no number", told(&Numbers, &128), None),
        (
            "the top of the ladder",
            told(&Ladder, &8),
            Some((0, 3, 8, true)),
        ),
        (
            "the foot of the ladder",
            told(&Ladder, &0),
            Some((2, 3, 0, false)),
        ),
        ("above the ladder", told(&Ladder, &9), None),
    ] {
        assert_eq!(rt; got, wanted, "{name}");
    }
    Ok(())
}

/// How filling ended, and with how many entries.
fn ending<S: Space>(alloc: Global, space: &S, limit: u32) -> (&'static str, usize)
    requires { 1 ≤ limit }
{
    match fill(alloc, space, limit) {
        Filled::Closed(table) => ("closed", entry_count(&table)),
        Filled::Wall(table) => ("wall", entry_count(&table)),
        Filled::Memory => ("memory", 0),
    }
}

fn entry_count<L>(table: &Table<L>) -> usize {
    let mut count = 0usize;
    for cell in table.cells.as_slice() {
        count = count.saturating_add(cell.len());
    }
    count
}

#[test]
fn endings(rt: HostRuntime) -> Result<(), Fail> {
    for (name, got, wanted) in [
        // Each number is an entry: none dominates another.
        (
            "all numbers",
            ending(rt.alloc(), &Numbers, 127),
            ("closed", 127),
        ),
        (
            "room to spare",
            ending(rt.alloc(), &Numbers, 500),
            ("closed", 127),
        ),
        (
            "one number too many",
            ending(rt.alloc(), &Numbers, 126),
            ("wall", 126),
        ),
        (
            "the root alone",
            ending(rt.alloc(), &Numbers, 1),
            ("wall", 1),
        ),
        // 8, then 5, 3 and 1, then 0.
        (
            "the whole ladder",
            ending(rt.alloc(), &Ladder, 5),
            ("closed", 5),
        ),
        ("no room for 0", ending(rt.alloc(), &Ladder, 4), ("wall", 4)),
    ] {
        assert_eq!(rt; got, wanted, "{name}");
    }
    Ok(())
}

/// The closed table of a space.
fn closed<S: Space>(alloc: Global, space: &S, limit: u32) -> Result<Table<S::Label>, &'static str>
    requires { 1 ≤ limit }
    ensures { IfOk result (λ table. HasOrigins table.cells) }
{
    match fill(alloc, space, limit) {
        Filled::Closed(table) => Ok(table),
        Filled::Wall(_) | Filled::Memory => Err("the table is not closed"),
    }
}

/// The entry at a place, if one stands there.
fn entry_at<L>(table: &Table<L>, place: Place) -> Option<&Entry<L>>
    ensures { IfSome result (λ e. StandsAt table.now.cells place e.now) }
{
    if place.cell as usize >= table.cells.len() {
        return None;
    }
    let entries = table.cells.at(place.cell as usize);
    if place.index as usize >= entries.len() {
        return None;
    }
    Some(entries.at(place.index as usize))
}

fn place(cell: u32, index: u32) -> Place {
    Place { cell, index }
}

#[test]
fn links(rt: HostRuntime) -> Result<(), Fail> {
    let table = closed(rt.alloc(), &Ladder, 5)?;
    for (name, at, label, gone) in [
        ("the root, in a cell of its own", place(0, 0), 8, None),
        ("5 is dominated by 3", place(1, 0), 5, Some(place(1, 1))),
        ("3 is dominated by 1", place(1, 1), 3, Some(place(1, 2))),
        ("1 is kept", place(1, 2), 1, None),
        ("0, in a cell of its own", place(2, 0), 0, None),
    ] {
        let entry = entry_at(&table, at).ok_or(name)?;
        assert_eq!(rt; entry.label, label, "{name}");
        assert_eq!(rt; entry.gone, gone, "{name}");
    }
    Ok(())
}

/// The walk of the entry at a place, if one stands there.
fn walk_at<L>(alloc: Global, table: &Table<L>, place: Place) -> Result<Option<List<u32>>, NoMemory>
    requires { HasOrigins table.now.cells }
{
    match entry_at(table, place) {
        None => Ok(None),
        Some(_) => Ok(Some(walk_of(alloc, table, place)?)),
    }
}

#[test]
fn walks(rt: HostRuntime) -> Result<(), Fail> {
    let numbers = closed(rt.alloc(), &Numbers, 127)?;
    let ladder = closed(rt.alloc(), &Ladder, 5)?;
    for (name, table, at, wanted) in [
        ("the root", &numbers, place(1, 0), [].as_slice()),
        // 1, then 2, then 5.
        ("the number 5", &numbers, place(1, 1), [0, 1].as_slice()),
        // 8, then 1 by the third choice, then 0 by the first.
        (
            "the foot of the ladder",
            &ladder,
            place(2, 0),
            [2, 0].as_slice(),
        ),
    ] {
        let walk = walk_at(rt.alloc(), table, at)?.ok_or(name)?;
        assert_eq!(rt; walk.as_slice(), wanted, "{name}");
    }
    Ok(())
}
