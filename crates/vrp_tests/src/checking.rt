//! What `check` answers to a model and the text of a certificate behind it. The certificates are worked out by hand.

use crate::running::{edits_answer, inputs_answer};
use std::test::Fail;
use test_models::texts;

/// The text with packing sets, and a certificate behind it whose lines are those from 23 on.
const SETS_CERTIFIED: &str = "vrpmodel 1
var 0 2 3
var 0 2 4
var 0 2 2
var 0 2 5
var 0 2 3
var 0 2 4
row 1 1 0 1 3 1
row 1 1 1 1 2 1
sets 2
graph 4 0 3 0 2 1 0
vertex - 0 2
vertex 0 0 2
vertex 1 0 2
vertex - 0 2
arc 0 1 1 0
arc 0 2 1 1
arc 1 2 1 2
arc 2 1 1 3
arc 1 3 0 4
arc 2 3 0 5
end
optimal 9
path 0 1 0 2 5
proof 1
close
mult row 0 262144
mult row 1 327680
table 0 full 0
fore 0 0 0
fore 1 -65536 1 m 0
fore 2 -65536 1 m 1
fore 2 -262144 2 m 1
fore 3 131072 1
fore 3 0 2
end
";

/// Edits of it.
const OF_SETS: &str = "1 0 |  | 0 | accepted optimal 9
23 23 | optimal 0009 # the least | 0 | accepted optimal 9
23 23 | optimal 8 | 4 | refused certificate 1 22 Cost
23 23 | optimal 10 | 4 | refused certificate 1 22 Cost
24 24 |  | 4 | refused certificate 1 21 Plan
24 24 | path 0 1 1 3 4 | 4 | refused certificate 1 22 Cost
24 24 | path 0 2 0 2 5 | 4 | refused certificate 1 21 Plan
23 24 | infeasible | 4 | refused certificate 3 28 Bound
33 33 |  | 4 | refused certificate 4 26 Cover
30 30 |  | 4 | refused certificate 4 25 Root
8 8 | row 1 * 0 1 3 1 | 0 | accepted optimal 9
27 27 | mult row 0 196608 | 4 | refused certificate 4 28 Bound
29 29 | table 0 full 1 | 4 | refused certificate 4 27 Sink
29 29 | table 0 full -1 | 0 | accepted optimal 9
29 29 | table 0 full -32768 | 4 | refused certificate 4 28 Bound
26 35 |  | 4 | refused certificate 4 32 Tail
26 26 | point / close | 4 | refused certificate 4 23 Split
25 25 | proof 2 | 4 | refused certificate 3 1 Version
26 26 | clos | 4 | refused certificate 4 2 Word
32 32 | fore 2 -65536 one | 4 | refused certificate 10 3 Number
36 36 | # end | 4 | refused certificate 15 7 EndMissing
36 36 | end / end | 4 | refused certificate 15 8 AfterEnd
16 16 | arc 0 1 -1 0 | 3 | refused model 16 11 MainNegative
18 18 | arc 1 2 1 3 | 4 | refused certificate 1 21 Plan
";

/// Certificates behind the text with three customers, the first with a cut.
const OF_CUSTOMERS: &str =
    "26 26 | optimal 4 / path 0 1 0 3 10 / path 0 1 2 11 / proof 1 / close / mult var 0 131072 / mult var 1 131072 / mult var 2 131072 / cut 2 131072 3 0 1 1 1 2 1 0 1 2 / table 0 full 0 / fore 0 0 0 s 0 / fore 1 0 1 m 0 s 1 / fore 2 0 1 m 1 s 1 / fore 3 0 1 m 2 s 1 / fore 1 0 2 m 0 s 0 / fore 2 0 2 m 1 s 0 / fore 3 0 2 m 2 s 0 / fore 4 0 1 s 1 / fore 4 0 2 s 0 / end | 0 | accepted optimal 4
26 26 | optimal 4 / path 0 1 0 3 10 / path 0 1 2 11 / proof 1 / close / mult var 0 131072 / mult var 1 131072 / mult var 2 131072 / cut 2 131072 3 0 1 1 1 2 1 0 1 2 / table 0 full 0 / fore 0 0 0 s 0 / fore 1 0 1 m 0 s 1 / fore 2 0 1 m 1 s 1 / fore 3 0 1 m 2 s 1 / fore 1 0 2 m 0 s 0 / fore 3 0 2 m 2 s 0 / fore 4 0 1 s 1 / fore 4 0 2 s 0 / end | 4 | refused certificate 5 26 Cover
";

/// Whole inputs.
const INPUTS: &str = " | 3 | refused model 1 7 EndMissing
vrpmodel 1/end | 4 | refused certificate 1 7 EndMissing
vrpmodel 1/end/end | 4 | refused certificate 1 5 Order
vrpmodel 1/end/optimal 0/proof 1/close/end | 0 | accepted optimal 0
vrpmodel 1/end/optimal 0/proof 1/end | 4 | refused certificate 3 32 Tail
vrpmodel 1/var 1 1 2/graph 3 0 2 1 1 1 0/vertex - 0 1/vertex - 0 1/vertex - 0 1/arc 0 1 1 0/arc 1 2 1 0/end/infeasible/proof 1/close/table 0 full none/fore 0 0 0/fore 1 131072 1/end | 0 | accepted infeasible
vrpmodel 1/var 1 1 2/graph 3 0 2 1 1 1 0/vertex - 0 1/vertex - 0 1/vertex - 0 2/arc 0 1 1 0/arc 1 2 1 0/end/infeasible/proof 1/close/table 0 full none/fore 0 0 0/fore 1 131072 1/end | 4 | refused certificate 3 26 Cover
";

#[test]
fn checked(rt: HostRuntime) -> Result<(), Fail> {
    edits_answer(&rt, rt.alloc(), "check", SETS_CERTIFIED, OF_SETS)?;
    edits_answer(&rt, rt.alloc(), "check", texts::CUSTOMERS, OF_CUSTOMERS)?;
    inputs_answer(&rt, rt.alloc(), "check", INPUTS)
}
