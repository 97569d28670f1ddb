//! CVRP texts with faults, of each kind at two places or more. In a row stand the first and the last line that are
//! replaced, by what, and the line and the number of the kind of the first fault.

use crate::outcomes::{Kind, refuses};
use crate::texts::CVRP;
use std::alloc::Global;
use std::process::Abort;
use std::test::Fail;
use test_models::edits::{edit_of, edited};

/// Texts with one fault.
const ONE: &str = "1 1 | NAME small | 1 41
3 3 | TYPE : | 3 41
3 3 | TYPE CVRP | 3 41
3 3 | TYPE : CVRP x | 3 41
3 3 | TYPE x : CVRP | 3 41
4 4 | DIMENSION : 4 4 | 4 41
6 6 | CAPACITY | 6 41
7 7 | NODE_COORD_SECTION x | 7 41
9 9 | 2 3 | 9 41
9 9 | 2 3 4 5 | 9 41
9 9 | x 3 4 | 9 41
9 9 | NAME : 3 | 9 41
11 11 | 4 0 -5 / 5 1 1 | 12 41
11 11 | 4 0 -5 / 4 0 -5 | 12 41
14 14 | 2 | 14 41
14 14 | 2.0 4 | 14 41
14 14 | 2 4 4 | 14 41
18 18 | 1 -1 | 18 41
18 18 | depot | 18 41
19 19 | -1 0 | 19 41
19 19 | -1 / -1 | 20 41
19 19 | -1 / 2 | 20 41
20 20 | EOF EOF | 20 41
20 20 | END | 20 41
4 4 | DIMENSION : four | 4 42
6 6 | CAPACITY : 10.0 | 6 42
6 6 | CAPACITY : x | 6 42
9 9 | 2 3. 4 | 9 42
9 9 | 2 3 4.5 | 9 42
9 9 | 2 3 4.00x | 9 42
9 9 | 2 .0 4 | 9 42
9 9 | 2 - 4 | 9 42
9 9 | 2 +3 4 | 9 42
14 14 | 2 4.0 | 14 42
14 14 | 2 x | 14 42
4 4 | DIMENSION : 1 | 4 43
4 4 | DIMENSION : -5 | 4 43
4 4 | DIMENSION : -10000000000000000000000000000000000000000 | 4 43
6 6 | CAPACITY : 0 | 6 43
6 6 | CAPACITY : 100000001 | 6 43
9 9 | 2 100001 4 | 9 43
9 9 | 2 3 -100001 | 9 43
9 9 | 2 3 -100001.0 | 9 43
9 9 | 0 3 4 | 9 43
9 9 | 5 3 4 | 9 43
14 14 | 2 -1 | 14 43
14 14 | 2 100000001 | 14 43
14 14 | -2 1 | 14 43
18 18 | 5 | 18 43
19 19 | -2 | 19 43
19 19 | 0 | 19 43
4 4 | TYPE : CVRP | 4 44
6 6 | CAPACITY : 10 / CAPACITY : 10 | 7 44
12 12 | NODE_COORD_SECTION | 12 44
17 17 | DEMAND_SECTION | 17 44
20 20 | DEPOT_SECTION | 20 44
9 9 | 1 3 4 | 9 44
16 16 | 2 7 | 16 44
19 19 | 1 | 19 44
3 3 |  | 6 45
4 4 |  | 6 45
5 5 |  | 6 45
6 6 |  | 6 45
7 7 | EOF | 8 45
7 20 |  | 7 45
1 20 |  | 1 45
11 11 |  | 20 45
16 16 |  | 20 45
18 18 |  | 20 45
19 19 |  | 20 45
19 20 |  | 19 45
17 20 |  | 17 45
12 16 |  | 16 45
7 11 |  | 16 45
3 3 | TYPE : TSP | 3 46
3 3 | TYPE : cvrp | 3 46
5 5 | EDGE_WEIGHT_TYPE : EUC_3D | 5 46
5 5 | EDGE_WEIGHT_TYPE : CVRP | 5 46
4 4 | DIMENSION : 246 | 4 47
4 4 | DIMENSION : 10000000000000000000000000000000000000000 | 4 47
13 13 | 1 1 | 18 48
18 18 | 2 | 18 48
19 19 | 2 | 19 48
";

/// Texts with two faults or more.
const NEIGHBOURS: &str = "3 3 | TYPE : TSP x | 3 46
3 4 | TYPE : CVRP / TYPE : TSP | 4 44
3 4 | TYPE : CVRP / TYPE x : TSP | 4 41
3 4 | TYPE : CVRP / TYPE CVRP | 4 41
4 4 | DIMENSION : 1 1 | 4 43
4 4 | DIMENSION : 246 x | 4 47
6 7 | NODE_COORD_SECTION x | 6 45
12 12 | NODE_COORD_SECTION x | 12 44
9 9 | x x | 9 41
9 9 | 5 x 4 | 9 43
9 9 | 1 x 4 | 9 44
9 9 | 2 x 100001 | 9 42
9 9 | 2 100001 x | 9 43
9 9 | 2 100001 | 9 43
9 9 | 2 3 4 x / 2 x | 9 41
14 14 | 1 x | 14 44
14 14 | 2 x x | 14 42
18 18 | 5 5 | 18 43
18 18 | 2 2 | 18 41
18 19 | 1 / 1 1 | 19 44
18 19 | 1 / 2 2 | 19 41
18 19 | -1 / 1 | 19 41
8 8 |  | 20 45
8 9 | 2 3 4 / 2 3 4 | 9 44
6 20 | NODE_COORD_SECTION / 1 x | 6 45
7 20 | NODE_COORD_SECTION / 1 x | 8 42
7 20 | DEPOT_SECTION / 2 / -1 / DEMAND_SECTION / 2 1 | 11 48
7 20 | DEPOT_SECTION / 2 / -1 / DEMAND_SECTION / 2 1 1 | 11 41
7 20 | DEPOT_SECTION / 2 / -1 / DEMAND_SECTION / 2 0 / 1 1 / EOF / x | 14 45
7 20 | DEPOT_SECTION / 2 / 3 | 9 48
7 20 | DEPOT_SECTION / DEMAND_SECTION / DEPOT_SECTION | 9 44
7 20 | DEMAND_SECTION / 1 1 / DEPOT_SECTION / 1 / 2 | 10 48
";

fn refuses_all<R: Abort>(rt: &R, alloc: Global, rows: &str) -> Result<(), Fail> {
    for row in rows.lines() {
        let (edit, expected) = edit_of(row)?;
        let text = edited(alloc, CVRP, edit)?;
        refuses(rt, alloc, Kind::Cvrp, text.as_slice(), expected, row)?;
    }
    Ok(())
}

#[test]
fn one_fault(rt: HostRuntime) -> Result<(), Fail> {
    refuses_all(&rt, rt.alloc(), ONE)
}

#[test]
fn first_of_faults(rt: HostRuntime) -> Result<(), Fail> {
    refuses_all(&rt, rt.alloc(), NEIGHBOURS)
}
