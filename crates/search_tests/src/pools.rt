//! The pool of walks and its columns. The expected columns are worked out by hand.

ghost use Rattle.std.specs.Prelude.{◌≡◌, ◌<◌, ◌≤◌, All, IsTrue, length};
ghost use Rattle.column_pool.specs.Walks.{IsPoolOf};
ghost use Rattle.rank1_cuts.specs.Fit.{CutFits};

use crate::models::{CHAIN, TWO_GRAPHS};
use column_pool::{Known, MAX_WALK_ARCS, Pool};
use fixed_master::Column;
use model_text::read_model;
use path_graph::{List, SetBits, is_walk};
use rank1_cuts::{Cut, CutSet, cut_fits};
use route_model::Model;
use std::alloc::{AllocError, Global};
use std::process::Abort;
use std::test::Fail;

/// How many walks the large pool has.
const WALKS: u32 = 5_000;

fn model_of(alloc: Global, text: &str) -> Result<Model, Fail> {
    if text.len() >= 4_294_967_295 {
        return Err(Fail::new("a long text"));
    }
    Ok(read_model(alloc, text.as_bytes())?)
}

/// Hands the walk of a graph by these arcs to the pool.
fn hand(pool: &mut Pool, model: &Model, g: u32, arcs: &[u32]) -> Result<Known, Fail>
    requires { IsPoolOf model.now pool.old }
    ensures { IsPoolOf model.now pool.new }
{
    if g as usize >= model.graphs.len() || arcs.len() > MAX_WALK_ARCS {
        return Err(Fail::new("no graph"));
    }
    if !is_walk(model.graphs.at(g as usize), arcs) {
        return Err(Fail::new("no walk"));
    }
    Ok(pool.add(model, g, arcs))
}

/// A cut of denominator 2 on one set, which it remembers.
fn cut_on(alloc: Global, set: u16) -> Result<Cut, AllocError> {
    let sets = vec![in alloc; CutSet { set, num: 1 }]?;
    Ok(Cut {
        den: 2,
        sets: List::from_vec(sets),
        memory: SetBits {
            bits: [3, 0, 0, 0, 0, 0, 0, 0],
        },
    })
}

/// Whether the cuts fit, and are few.
fn cuts_fit(cuts: &[Cut]) -> bool
    ensures { IsTrue result → All CutFits cuts.now }
{
    cuts.iter().all(|cut| cut_fits(cut).is_ok())
}

fn check_column<R: Abort>(rt: &R, name: &str, column: &Column, cost: i64, entries: &[(u32, i64)]) {
    assert_eq!(rt; column.cost, cost, "{name}");
    assert_eq!(rt; column.entries.len(), entries.len(), "{name}");
    for (entry, (row, value)) in column.entries.as_slice().iter().zip(entries.iter()) {
        assert_eq!(rt; (entry.row, entry.value), (*row, *value), "{name}");
    }
}

/// A walk that is handed to the pool, and what the pool answers.
#[derive(Clone, Copy)]
struct Handed<'a> {
    name: &'a str,
    g: u32,
    arcs: &'a [u32],
    known: Known,
}

/// Hands walks to the pool, and compares the answers.
fn check_hands<R: Abort>(
    rt: &R,
    pool: &mut Pool,
    model: &Model,
    rows: &[Handed<'_>],
) -> Result<(), Fail>
    requires { IsPoolOf model.now pool.old }
    ensures { IsPoolOf model.now pool.new }
{
    for row in rows {
        let known = hand(pool, model, row.g, row.arcs)?;
        assert_eq!(rt; known, row.known, "{}", row.name);
    }
    Ok(())
}

/// The column of a walk.
fn column_at(
    alloc: Global,
    pool: &Pool,
    model: &Model,
    i: u32,
    cuts: &[Cut],
) -> Result<Column, Fail>
    requires { IsPoolOf model.now pool.now }
{
    if model.vars.is_empty() || i >= pool.len() {
        return Err(Fail::new("no such walk"));
    }
    if cuts.len() > 64 || !cuts_fit(cuts) {
        return Err(Fail::new("no cuts"));
    }
    Ok(pool.column(alloc, i, cuts)?)
}

/// The walks of two graphs, some of them twice.
const HANDED: [Handed<'static>; 6] = [
    Handed {
        name: "the first",
        g: 0,
        arcs: &[0],
        known: Known::New(0),
    },
    Handed {
        name: "the first again",
        g: 0,
        arcs: &[0],
        known: Known::Had(0),
    },
    Handed {
        name: "the same arcs of another graph",
        g: 1,
        arcs: &[0],
        known: Known::New(1),
    },
    Handed {
        name: "three arcs",
        g: 1,
        arcs: &[1, 2, 3],
        known: Known::New(2),
    },
    Handed {
        name: "the second again",
        g: 1,
        arcs: &[0],
        known: Known::Had(1),
    },
    Handed {
        name: "three arcs again",
        g: 1,
        arcs: &[1, 2, 3],
        known: Known::Had(2),
    },
];

/// A column that is expected: the number of its walk, its cost, its entries.
#[derive(Clone, Copy)]
struct Expected<'a> {
    name: &'a str,
    i: u32,
    cost: i64,
    entries: &'a [(u32, i64)],
}

/// The columns with two cuts. Three variables, three rows and two sets come before the cuts, and two graphs after them.
const COLUMNS: [Expected<'static>; 3] = [
    Expected {
        name: "graph 0",
        i: 0,
        cost: 1,
        entries: &[(0, 1), (2, 1), (3, 2), (4, 5), (5, -3), (10, 1)],
    },
    Expected {
        name: "a walk without sets",
        i: 1,
        cost: 4,
        entries: &[(1, 1), (3, -1), (5, 2), (11, 1)],
    },
    // Variable 0 twice; row 2 sums to 0; set 1 twice, so that its cut rises once.
    Expected {
        name: "twice",
        i: 2,
        cost: 8,
        entries: &[
            (0, 2),
            (1, 1),
            (2, 1),
            (3, 3),
            (4, 5),
            (7, 2),
            (9, 1),
            (11, 1),
        ],
    },
];

/// The column without cuts of a walk with many entries.
const WITHOUT_CUTS: [Expected<'static>; 1] = [Expected {
    name: "no cuts",
    i: 2,
    cost: 8,
    entries: &[(0, 2), (1, 1), (2, 1), (3, 3), (4, 5), (7, 2), (9, 1)],
}];

fn check_columns<R: Abort>(
    rt: &R,
    alloc: Global,
    pool: &Pool,
    model: &Model,
    cuts: &[Cut],
    rows: &[Expected<'_>],
) -> Result<(), Fail>
    requires { IsPoolOf model.now pool.now }
{
    for row in rows {
        let column = column_at(alloc, pool, model, row.i, cuts)?;
        check_column(rt, row.name, &column, row.cost, row.entries);
    }
    Ok(())
}

fn check_walk<R: Abort>(rt: &R, pool: &Pool, i: u32, g: u32, arcs: &[u32]) -> Result<(), Fail> {
    if i >= pool.len() {
        return Err(Fail::new("no such walk"));
    }
    let (graph, path) = pool.walk(i);
    assert_eq!(rt; graph, g);
    assert_eq!(rt; path, arcs);
    Ok(())
}

fn two_cuts(alloc: Global) -> Result<Vec<Cut>, AllocError> {
    let mut cuts = Vec::new(alloc);
    cuts.push(cut_on(alloc, 0)?)?;
    cuts.push(cut_on(alloc, 1)?)?;
    Ok(cuts)
}

#[test]
fn walks_and_columns(rt: HostRuntime) -> Result<(), Fail> {
    let alloc = rt.alloc();
    let model = model_of(alloc, TWO_GRAPHS)?;
    let mut pool = Pool::new(alloc, &model)?;
    check_hands(&rt, &mut pool, &model, HANDED.as_slice())?;
    assert_eq!(rt; pool.len(), 3);
    check_walk(&rt, &pool, 2, 1, [1, 2, 3].as_slice())?;
    let cuts = two_cuts(alloc)?;
    check_columns(
        &rt,
        alloc,
        &pool,
        &model,
        cuts.as_slice(),
        COLUMNS.as_slice(),
    )?;
    check_columns(
        &rt,
        alloc,
        &pool,
        &model,
        &cuts.as_slice()[..0],
        WITHOUT_CUTS.as_slice(),
    )
}

/// The arcs of a walk of the chain: at each vertex one of two, by a digit of the number in binary.
fn chain_walk(i: u32) -> [u32; 17] {
    let mut arcs = [0; 17];
    for step in 0..17u32 {
        arcs[step as usize] = 2 * step + ((i >> step) & 1);
    }
    arcs
}

/// Hands the walks of the chain to the pool, which are new to it or were there.
fn hand_chain<R: Abort>(rt: &R, pool: &mut Pool, model: &Model, are_new: bool) -> Result<(), Fail>
    requires { IsPoolOf model.now pool.old }
    ensures { IsPoolOf model.now pool.new }
{
    for i in 0..WALKS {
        let known = hand(pool, model, 0, chain_walk(i).as_slice())?;
        let expected = if are_new {
            Known::New(i)
        } else {
            Known::Had(i)
        };
        assert_eq!(rt; known, expected);
    }
    Ok(())
}

#[test]
fn many_walks(rt: HostRuntime) -> Result<(), Fail> {
    let alloc = rt.alloc();
    let model = model_of(alloc, CHAIN)?;
    let mut pool = Pool::new(alloc, &model)?;
    hand_chain(&rt, &mut pool, &model, true)?;
    hand_chain(&rt, &mut pool, &model, false)?;
    assert_eq!(rt; pool.len(), WALKS);
    Ok(())
}
