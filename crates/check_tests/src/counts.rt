//! Lists of walks, and the nodes of their counts. In a row stand the first and the last line of a certificate that are
//! replaced, by what, and what the check says.

use crate::certs::{LISTED, LISTED_BELOW_NINE, LISTED_BELOW_TWELVE, TWO_GRAPHS, TWO_TREES};
use crate::outcomes::{edited_model, table};
use std::test::Fail;
use test_models::texts::SETS;

/// No solution, by a list and a close of its counts.
const OF_LISTED: &str = "1 0 |  | accepted
17 17 |  | 3 30 List
16 16 |  | 3 30 List
15 15 | pre 0 1 / pre 0 0 | 3 30 List
17 17 | pre 2 5 / pre 2 4 | 3 30 List
14 14 | pre 0 0 / pre 0 0 | 3 30 List
21 21 |  | 18 28 Bound
18 21 | point | 18 31 Point
18 21 | close | 18 23 Split
18 21 | list | 18 23 Split
18 21 | fix | 18 23 Split
18 21 | split var 0 0 | 18 23 Split
18 21 |  | 18 32 Tail
18 21 | csplit 0 0 / csplit 1 0 / point / point / csplit 1 0 / point / point | accepted
18 21 | csplit 0 0 / csplit 1 0 / point / point / csplit 1 0 / point | 24 32 Tail
18 21 | csplit 2 0 | 18 23 Split
18 21 | csplit 0 1 | 18 23 Split
18 21 | csplit 0 -1 | 18 23 Split
18 21 | csplit 0 0 / csplit 0 0 | 19 23 Split
18 21 | csplit 4294967295 0 | 18 23 Split
18 21 | csplit 0 0 / point | 19 31 Point
21 21 | mult paths 0 -1900543 | accepted
21 21 | mult paths 0 -1900545 | accepted
21 21 | mult paths 0 -1966080 | accepted
13 17 |  | 3 30 List
13 13 | tree 0 / tree 0 | 3 30 List
4 4 | table 0 both 393217 | 3 27 Sink
4 4 | table 0 both 0 | accepted
22 22 | cclose / end | 22 32 Tail
22 22 | point / end | 22 32 Tail
18 21 | csplit 0 0 / close | 19 23 Split
";

/// The same, for the model in which one row has no upper side.
const OF_LISTED_WIDE: &str = "19 19 | mult row 0 -1 | 18 24 Side
19 21 | mult row 0 -1 | 18 24 Side
1 0 |  | accepted
";

/// Splits of counts, points and closes; the sums are one above and at the limit.
const OF_LISTED_BELOW_NINE: &str = "1 0 |  | accepted
21 21 |  | 4 30 List
22 22 |  | 4 30 List
22 22 | pre 2 5 / pre 2 3 | accepted
19 22 | pre 0 0 / pre 0 1 / pre 1 4 / pre 2 3 / pre 2 5 | accepted
1 2 | optimal 12 / path 0 1 1 3 4 | 4 30 List
27 27 | mult row 0 589824 | accepted
27 27 | mult row 0 65536 | accepted
27 27 | mult row 0 65537 | accepted
29 29 | mult row 1 131072 | 28 28 Bound
29 29 | mult row 1 131073 | accepted
27 27 |  | 26 28 Bound
24 24 | csplit 1 -1 | 24 23 Split
24 24 | csplit 1 2 | 24 23 Split
24 24 | csplit 0 0 | 24 23 Split
26 27 | point | 26 31 Point
25 25 | point / point | 26 31 Point
28 29 |  | 28 32 Tail
30 30 | cclose / end | 30 32 Tail
23 29 | csplit 0 0 / csplit 1 0 / point / csplit 1 1 / point / point / csplit 0 1 / csplit 1 0 / point / csplit 1 1 / point / point / csplit 1 0 / point / csplit 1 1 / point / point | accepted
23 29 | csplit 0 0 / csplit 1 0 / point / csplit 1 1 / point / point / csplit 0 1 / csplit 1 0 / point / csplit 1 1 / point / point / csplit 1 0 / point / csplit 1 1 / point | 39 32 Tail
1 2 | optimal 14 / path 0 1 0 4 / path 0 1 1 5 | 5 30 List
";

/// A plan that is not the cheapest: a list that has the cheaper one.
const OF_LISTED_BELOW_TWELVE: &str = "1 0 |  | 27 31 Point
27 27 | csplit 2 0 / point / csplit 2 1 / point | 30 31 Point
27 27 | csplit 1 0 / csplit 2 0 / point / csplit 2 1 / point / point | 27 23 Split
25 31 | csplit 2 0 / cclose / mult row 0 1 / cclose | 26 28 Bound
24 24 |  | 4 30 List
";

/// Two graphs with one walk each.
const OF_TWO_TREES: &str = "1 0 |  | accepted
16 19 | tree 1 / pre 0 0 / tree 0 / pre 0 0 | 5 30 List
16 19 | tree 0 / pre 0 0 / tree 0 / pre 0 0 | 5 30 List
18 19 |  | 5 30 List
18 18 | tree 0 | 5 30 List
19 19 |  | 5 30 List
11 15 |  | 5 25 Root
17 17 |  | 5 30 List
2 2 |  | 1 21 Plan
1 1 | optimal 8 | 1 22 Cost
21 21 | mult row 0 262144 | 20 28 Bound
21 21 | mult row 0 262145 | accepted
21 21 | mult row 0 393216 | accepted
20 21 | csplit 1 0 / cclose / mult row 0 327680 / csplit 0 0 / cclose / mult row 0 327680 / point | accepted
20 21 | csplit 1 0 / cclose / mult row 0 327680 / csplit 0 0 / point / point | accepted
20 21 | csplit 2 0 | 20 23 Split
1 4 | infeasible / proof 1 | 18 28 Bound
";

/// Paths of at most one step.
const ONE_STEP: &str =
    "11 15 | graph 4 0 3 0 1 1 0 / vertex - 0 1 / vertex 0 0 1 / vertex 1 0 1 / vertex - 0 1 | one step";

/// Paths of at most one step, and a row without upper side.
const ONE_STEP_WIDE: &str =
    "8 15 | row 1 * 0 1 3 1 / row 1 1 1 1 2 1 / sets 2 / graph 4 0 3 0 1 1 0 / vertex - 0 1 / vertex 0 0 1 / vertex 1 0 1 / vertex - 0 1 | one step";

#[test]
fn lists(rt: HostRuntime) -> Result<(), Fail> {
    let alloc = rt.alloc();
    let one_step = edited_model(alloc, SETS, ONE_STEP)?;
    table(&rt, alloc, one_step.as_slice(), LISTED, OF_LISTED)?;
    let wide = edited_model(alloc, SETS, ONE_STEP_WIDE)?;
    table(&rt, alloc, wide.as_slice(), LISTED, OF_LISTED_WIDE)?;
    table(&rt, alloc, TWO_GRAPHS.as_bytes(), TWO_TREES, OF_TWO_TREES)
}

#[test]
fn counts(rt: HostRuntime) -> Result<(), Fail> {
    let alloc = rt.alloc();
    table(
        &rt,
        alloc,
        SETS.as_bytes(),
        LISTED_BELOW_NINE,
        OF_LISTED_BELOW_NINE,
    )?;
    table(
        &rt,
        alloc,
        SETS.as_bytes(),
        LISTED_BELOW_TWELVE,
        OF_LISTED_BELOW_TWELVE,
    )
}
