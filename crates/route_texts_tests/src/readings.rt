//! Texts that are read. In a row stand the first and the last line that are replaced, by what, and the task.

use crate::outcomes::{Kind, reads};
use crate::texts::{CVRP, VRPTW};
use std::alloc::Global;
use std::process::Abort;
use std::test::Fail;
use test_models::edits::{edit_of, edited};

/// What the CVRP text says.
const SMALL: &str = "euclid 3 10 / 1 0 0 0 0 0 0 / 2 3 4 4 0 0 0 / 3 -6 8 0 0 0 0 / 4 0 -5 7 0 0 0";

/// Other CVRP texts that say the same, with blanks, lines that are skipped, sections and nodes in another order, and
/// without `EOF` or with lines behind it.
const ALIKE: &str = "20 20 | EOF / any: line / 1 x / TYPE : TSP
20 20 | 
20 20 |  \x09  EOF\x0d
19 20 | -1
19 19 | -01
3 6 | CAPACITY : 10 / EDGE_WEIGHT_TYPE : EUC_2D / DIMENSION : 4 / TYPE : CVRP
3 6 | TYPE: CVRP / DIMENSION:4 / EDGE_WEIGHT_TYPE :EUC_2D /  CAPACITY \x09: 10\x0d
3 3 | TYPE : CVRP / a b : c / : / :TYPE : TSP / type : tsp / EOF: / NODE_COORD_SECTION: 3 / x#y:
4 4 |  / DIMENSION : 004 / \x09\x0d
8 8 | 1 0.0 -0.000
9 9 | 02 003.00 4.0
8 11 | 4 0 -5 /  / 3 -6 8 / 2 3 4 / 1 0 0
13 16 | 4 7 / 3 0 / 1 0 / 2 4
7 19 | DEPOT_SECTION / 1 / -1 / DEMAND_SECTION / 1 0 / 2 4 / 3 0 / 4 7 / NODE_COORD_SECTION / 1 0 0 / 2 3 4 / 3 -6 8 / 4 0 -5
7 19 | DEMAND_SECTION / 1 0 / 2 4 / 3 0 / 4 7 / DEPOT_SECTION / 1 / -1 / NODE_COORD_SECTION / 1 0 0 / 2 3 4 / 3 -6 8 / 4 0 -5
";

/// CVRP texts that say other tasks.
const OTHERS: &str =
    "18 18 | 3 | euclid 3 10 / 3 -6 8 0 0 0 0 / 1 0 0 0 0 0 0 / 2 3 4 4 0 0 0 / 4 0 -5 7 0 0 0
6 6 | CAPACITY : 100000000 | euclid 3 100000000 / 1 0 0 0 0 0 0 / 2 3 4 4 0 0 0 / 3 -6 8 0 0 0 0 / 4 0 -5 7 0 0 0
9 9 | 2 100000 -100000.0 | euclid 3 10 / 1 0 0 0 0 0 0 / 2 100000 -100000 4 0 0 0 / 3 -6 8 0 0 0 0 / 4 0 -5 7 0 0 0
14 14 | 2 100000000 | euclid 3 10 / 1 0 0 0 0 0 0 / 2 3 4 100000000 0 0 0 / 3 -6 8 0 0 0 0 / 4 0 -5 7 0 0 0
";

/// VRPTW texts, with lines that are skipped.
const TENTHS: &str =
    "1 1 | C1 | tenths 3 200 / 0 40 50 0 0 1000 0 / 1 45 68 10 900 960 90 / 2 -45 70 0 825 870 90 / 7 42 66 10 65 146 90
1 9 | 3 200 | tenths 3 200 / 0 40 50 0 0 1000 0 / 1 45 68 10 900 960 90 / 2 -45 70 0 825 870 90 / 7 42 66 10 65 146 90
10 10 | 0 40 50 0 0 1000 0\x0d / 5 5 5 5 5 5 5x / 5 5.0 / # 5 / \x09 | tenths 3 200 / 0 40 50 0 0 1000 0 / 1 45 68 10 900 960 90 / 2 -45 70 0 825 870 90 / 7 42 66 10 65 146 90
11 13 | \x095  1 -1 0 10000000\x0910000000 1000000 | tenths 3 200 / 0 40 50 0 0 1000 0 / 5 1 -1 0 10000000 10000000 1000000
5 5 | 1000000 100000000 | tenths 1000000 100000000 / 0 40 50 0 0 1000 0 / 1 45 68 10 900 960 90 / 2 -45 70 0 825 870 90 / 7 42 66 10 65 146 90
10 13 | 9 100000 -100000 0 5 5 7 / 1000000 0 0 100000000 0 0 0 | tenths 3 200 / 9 100000 -100000 0 5 5 7 / 1000000 0 0 100000000 0 0 0
";

fn reads_all<R: Abort>(
    rt: &R,
    alloc: Global,
    kind: Kind,
    text: &str,
    rows: &str,
) -> Result<(), Fail> {
    for row in rows.lines() {
        let (edit, expected) = edit_of(row)?;
        let text = edited(alloc, text, edit)?;
        reads(rt, alloc, kind, text.as_slice(), expected, row)?;
    }
    Ok(())
}

#[test]
fn alike(rt: HostRuntime) -> Result<(), Fail> {
    for row in ALIKE.lines() {
        let whole = format!(in rt.alloc(); "{row} | {SMALL}")?;
        let (edit, expected) = edit_of(whole.as_str())?;
        let text = edited(rt.alloc(), CVRP, edit)?;
        reads(&rt, rt.alloc(), Kind::Cvrp, text.as_slice(), expected, row)?;
    }
    Ok(())
}

#[test]
fn others(rt: HostRuntime) -> Result<(), Fail> {
    reads_all(&rt, rt.alloc(), Kind::Cvrp, CVRP, OTHERS)
}

#[test]
fn tenths(rt: HostRuntime) -> Result<(), Fail> {
    reads_all(&rt, rt.alloc(), Kind::Vrptw, VRPTW, TENTHS)
}

#[test]
fn any_bytes(rt: HostRuntime) -> Result<(), Fail> {
    let text =
        b"C\xff1 #\n1 9 # 3\n1 9\n\x80\x00 1\n0 0 0 0 0 0 0\n4 1 1 1 0 9 1\r\n \xa0 1".as_slice();
    let task = "tenths 1 9 / 0 0 0 0 0 0 0 / 4 1 1 1 0 9 1";
    reads(
        &rt,
        rt.alloc(),
        Kind::Vrptw,
        text,
        task,
        "any bytes in lines that are skipped",
    )
}
