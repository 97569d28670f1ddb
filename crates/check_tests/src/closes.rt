//! Plans, splits and closes. In a row stand the first and the last line of a certificate that are replaced, by what, and
//! what the check says.

use crate::certs::{HALVES, INFEASIBLE, NO_WALKS, OPTIMAL, SPLIT, UNREACHED, WITH_CUT};
use crate::outcomes::{edited_model, table};
use std::test::Fail;
use test_models::texts::{CUSTOMERS, SETS};

/// A plan, and a close with a table of forward labels.
const OF_OPTIMAL: &str = "1 0 |  | accepted
1 1 | optimal 8 | 1 22 Cost
1 1 | optimal 10 | 1 22 Cost
2 2 |  | 1 21 Plan
2 2 | path 0 1 1 3 4 | 1 22 Cost
1 2 | optimal 8 | 1 21 Plan
1 2 | optimal 12 / path 0 1 1 3 4 | 4 28 Bound
1 2 | optimal 9 / path 0 1 0 2 5 / path 0 1 0 4 | 1 21 Plan
1 2 | optimal 14 / path 0 1 0 4 / path 0 1 1 5 | 5 28 Bound
1 2 | optimal 13 / path 0 1 0 4 / path 0 1 1 5 | 1 22 Cost
1 2 | optimal 9 / path 0 1 5 | 1 21 Plan
1 2 | optimal 18 / path 0 2 0 2 5 | 1 21 Plan
1 2 | infeasible | 3 28 Bound
5 5 | mult var 0 1 | 4 28 Bound
5 5 | mult var 0 1 / mult row 0 262144 | 4 26 Cover
5 6 | mult row 0 262144 | 4 28 Bound
6 6 | mult row 1 327679 | accepted
6 6 | mult row 1 327681 | 4 26 Cover
7 7 | table 0 full 1 | 4 27 Sink
7 7 | table 0 full -1 | accepted
7 7 | table 0 full none | 4 27 Sink
7 7 | table 0 both 0 | 4 25 Root
7 13 |  | 4 25 Root
8 8 |  | 4 25 Root
8 9 |  | 4 25 Root
9 9 |  | 4 26 Cover
10 10 |  | 4 26 Cover
11 11 |  | 4 26 Cover
12 12 |  | 4 26 Cover
13 13 |  | 4 26 Cover
11 13 | fore 2 -262144 3 m 1 / fore 3 131072 1 / fore 3 0 2 | 4 26 Cover
7 9 | table 0 full 65536 / fore 0 0 0 | 4 26 Cover
12 13 | fore 3 131072 1 m 0 / fore 3 196608 1 / fore 3 0 2 | 4 26 Cover
7 13 | near 0 3 0 / table 0 full 0 / fore 0 0 0 / fore 1 -65536 1 m 0 / fore 2 -65536 1 m 1 / fore 2 -262144 2 m 1 / fore 3 131072 1 m 0 / fore 3 196608 1 / fore 3 0 2 | accepted
4 13 |  | 4 32 Tail
4 13 | split var 0 0 | 5 32 Tail
4 13 | split var 0 2 | 4 23 Split
4 13 | split paths 0 2 | 4 23 Split
4 13 | split paths 0 -1 | 4 23 Split
4 13 | csplit 0 0 | 4 23 Split
4 13 | cclose / mult row 0 262144 | 4 23 Split
4 13 | point | 4 23 Split
4 4 | fix | 4 25 Root
4 4 | list | 4 25 Root
14 14 | close / end | 14 32 Tail
14 14 | split var 0 9 / end | 14 32 Tail
14 14 | point / end | 14 32 Tail
1 7 | infeasible / proof 1 / close / mult row 0 262144 / mult row 1 327680 / table 0 full 65536 | 3 27 Sink
";

/// The same, for the model in which one row has no upper side.
const OF_WIDE: &str = "1 0 |  | accepted
5 5 | mult row 0 -1 | 4 24 Side
5 8 | mult row 0 -1 / table 0 full 0 | 4 24 Side
";

/// A split whose parts are closed.
const OF_SPLIT: &str = "1 0 |  | accepted
4 4 | split var 0 2 | 4 23 Split
4 4 | split var 0 -1 | 4 23 Split
4 4 | split var 0 1 | accepted
4 4 | split paths 0 0 | accepted
4 4 | split paths 0 2 | 4 23 Split
15 24 |  | 15 32 Tail
5 14 |  | 15 32 Tail
5 24 |  | 5 32 Tail
4 4 | split var 0 2 / csplit 0 0 | 4 23 Split
17 18 | table 0 full 65536 | 15 27 Sink
15 24 | split var 0 0 | 15 23 Split
15 24 | split var 0 1 | 16 32 Tail
15 24 | split var 0 1 / close / mult row 0 262144 / mult row 1 327680 / table 0 full 0 / fore 0 0 0 / fore 1 -65536 1 m 0 / fore 2 -65536 1 m 1 / fore 2 -262144 2 m 1 / fore 3 131072 1 / fore 3 0 2 / close / mult row 0 262144 / mult row 1 327680 / table 0 full 0 / fore 0 0 0 / fore 1 -65536 1 m 0 / fore 2 -65536 1 m 1 / fore 2 -262144 2 m 1 / fore 3 131072 1 / fore 3 0 2 | accepted
4 4 | split var 0 1 / split var 0 0 / close / mult row 0 262144 / mult row 1 327680 / table 0 full 0 / fore 0 0 0 / fore 1 -65536 1 m 0 / fore 2 -65536 1 m 1 / fore 2 -262144 2 m 1 / fore 3 131072 1 / fore 3 0 2 | accepted
25 25 | point / end | 25 32 Tail
5 14 | split var 0 0 | 5 23 Split
24 24 | fore 3 0 2 / close / mult row 0 262144 / mult row 1 327680 / table 0 full 0 / fore 0 0 0 / fore 1 -65536 1 m 0 / fore 2 -65536 1 m 1 / fore 2 -262144 2 m 1 / fore 3 131072 1 / fore 3 0 2 | 25 32 Tail
";

/// A close with a cut.
const OF_WITH_CUT: &str = "1 0 |  | accepted
13 13 |  | 5 26 Cover
16 16 |  | 5 26 Cover
9 9 | cut 2 131071 3 0 1 1 1 2 1 0 1 2 | 5 26 Cover
9 9 | cut 2 131072 3 0 2 1 1 2 1 0 1 2 | 5 24 Side
9 9 | cut 2 131072 3 0 1 1 1 2 1 | 5 26 Cover
9 9 | cut 2 131072 3 0 1 1 1 1 1 0 1 2 | 5 24 Side
9 9 | cut 1 131072 3 0 1 1 1 2 1 0 1 2 | 5 24 Side
9 9 | cut 2 131072 3 0 0 1 1 2 1 0 1 2 | 5 24 Side
11 11 | fore 0 0 0 s 1 | 5 25 Root
12 12 | fore 1 0 1 m 0 s 0 | 5 26 Cover
10 10 | table 0 full 65536 | 5 27 Sink
6 6 | mult var 0 131071 | accepted
1 1 | optimal 3 | 1 22 Cost
1 3 | infeasible | 3 28 Bound
9 9 | cut 2 131072 3 0 1 1 1 2 1 0 1 2 / near 0 1 0 | accepted
";

/// A close with a half table.
const OF_HALVES: &str = "1 0 |  | accepted
7 7 | table 0 half 1 65536 | 4 27 Sink
7 7 | table 0 half -1 0 | 4 25 Root
12 12 |  | 4 26 Cover
7 7 | table 0 half 0 0 | 4 26 Cover
7 7 | table 0 half 2 0 | 4 26 Cover
7 7 | table 0 half 1 none | 4 27 Sink
8 8 |  | 4 25 Root
11 11 |  | 4 25 Root
13 13 |  | 4 26 Cover
9 9 |  | 4 26 Cover
7 7 | table 0 half 1 -1 | accepted
7 7 | table 0 half -1 65536 | 4 25 Root
4 4 | list | 4 25 Root
7 7 | table 0 both 0 | 4 26 Cover
7 7 | table 0 half 1 -65536 | 4 28 Bound
";

/// No solution, by a close.
const OF_INFEASIBLE: &str = "1 0 |  | accepted
6 6 | table 0 full -2097152 | 3 28 Bound
6 6 | table 0 full -1966080 | 3 27 Sink
4 4 | mult row 0 2359296 | 3 28 Bound
6 6 | table 0 full none | 3 27 Sink
1 1 | optimal 42 | 1 21 Plan
6 10 | table 0 full -1966080 / fore 0 0 0 / fore 1 -2228224 1 m 0 / fore 3 -2031616 1 | 3 26 Cover
";

/// A graph without walks, of which no path is asked.
const OF_NO_WALKS: &str = "1 0 |  | 3 28 Bound
4 4 | table 0 full 0 | 3 28 Bound
4 4 | mult var 0 196608 / table 0 full none | 3 26 Cover
4 6 | mult var 0 196608 / table 0 full none / fore 0 0 0 / fore 1 -65536 1 | accepted
4 6 | mult var 0 131073 / table 0 full none / fore 0 0 0 / fore 1 0 1 | 3 26 Cover
4 6 | mult var 0 131072 / table 0 full none / fore 0 0 0 / fore 1 0 1 | 3 28 Bound
4 6 | mult var 0 196608 / table 0 full 0 / fore 0 0 0 / fore 1 -65536 1 | accepted
";

/// The same graph, of which one path is asked.
const OF_NO_WALKS_ASKED: &str = "1 0 |  | accepted
4 4 | table 0 full 0 | 3 28 Bound
4 4 | table 0 full 1000000 | accepted
4 6 | split paths 0 0 | 3 25 Root
6 6 |  | 3 26 Cover
4 6 | table 0 half 0 none / fore 0 0 0 / back 2 0 1 | accepted
3 6 | fix / table 0 both none / fore 0 0 0 / fore 1 131072 1 / back 2 0 1 / back 1 131072 0 / drop 0 0 1 / close / table 0 full none / fore 0 0 0 | accepted
3 6 | list / table 0 both none / fore 0 0 0 / fore 1 131072 1 / back 2 0 1 / back 1 131072 0 / tree 0 / cclose | 10 28 Bound
3 6 | list / table 0 both none / fore 0 0 0 / fore 1 131072 1 / back 2 0 1 / back 1 131072 0 / back 0 262144 -1 / tree 0 / point | 3 26 Cover
";

/// Lists without walks.
const OF_NO_WALKS_LISTED: &str =
    "3 6 | list / table 0 both none / fore 0 0 0 / fore 1 131072 1 / back 2 0 1 / back 1 131072 0 / tree 0 / point | accepted
3 6 | list / table 0 both none / fore 0 0 0 / fore 1 131072 1 / back 2 0 1 / back 1 131072 0 / tree 0 / cclose | 10 28 Bound
3 6 | list / table 0 both none / fore 0 0 0 / fore 1 131072 1 / back 2 0 1 / back 1 131072 0 / tree 0 / cclose / mult var 0 196608 | accepted
3 6 | list / table 0 both none / fore 0 0 0 / fore 1 131072 1 / back 2 0 1 / back 1 131072 0 / tree 0 / csplit 0 0 | 10 23 Split
";

/// One row without upper side.
const WIDE: &str = "8 8 | row 1 * 0 1 3 1 | wide";

/// Paths of at most one step.
const ONE_STEP: &str =
    "11 15 | graph 4 0 3 0 1 1 0 / vertex - 0 1 / vertex 0 0 1 / vertex 1 0 1 / vertex - 0 1 | one step";

/// One path is asked.
const ONE_ASKED: &str = "3 3 | graph 3 0 2 1 1 1 0 | one path";

#[test]
fn plans_and_closes(rt: HostRuntime) -> Result<(), Fail> {
    let alloc = rt.alloc();
    table(&rt, alloc, SETS.as_bytes(), OPTIMAL, OF_OPTIMAL)?;
    table(&rt, alloc, SETS.as_bytes(), HALVES, OF_HALVES)?;
    table(&rt, alloc, CUSTOMERS.as_bytes(), WITH_CUT, OF_WITH_CUT)?;
    table(
        &rt,
        alloc,
        SETS.as_bytes(),
        INFEASIBLE,
        "1 0 |  | 3 26 Cover",
    )?;
    let wide = edited_model(alloc, SETS, WIDE)?;
    table(&rt, alloc, wide.as_slice(), OPTIMAL, OF_WIDE)?;
    let one_step = edited_model(alloc, SETS, ONE_STEP)?;
    table(&rt, alloc, one_step.as_slice(), INFEASIBLE, OF_INFEASIBLE)
}

#[test]
fn splits(rt: HostRuntime) -> Result<(), Fail> {
    table(&rt, rt.alloc(), SETS.as_bytes(), SPLIT, OF_SPLIT)
}

#[test]
fn graphs_without_walks(rt: HostRuntime) -> Result<(), Fail> {
    let alloc = rt.alloc();
    table(&rt, alloc, UNREACHED.as_bytes(), NO_WALKS, OF_NO_WALKS)?;
    table(
        &rt,
        alloc,
        UNREACHED.as_bytes(),
        NO_WALKS,
        OF_NO_WALKS_LISTED,
    )?;
    let asked = edited_model(alloc, UNREACHED, ONE_ASKED)?;
    table(&rt, alloc, asked.as_slice(), NO_WALKS, OF_NO_WALKS_ASKED)
}
