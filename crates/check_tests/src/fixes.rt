//! Fixes. In a row stand the first and the last line of a certificate that are replaced, by what, and what the check says.

use crate::certs::FIXED;
use crate::outcomes::table;
use std::test::Fail;
use test_models::texts::SETS;

/// A fix of three arcs, and a close of the place that is left.
const OF_FIXED: &str = "1 0 |  | accepted
23 23 | drop 0 0 | 4 29 Fix
23 23 | drop 0 1 3 4 0 | 4 29 Fix
23 23 | drop 0 6 | 4 29 Fix
23 23 | drop 0 4294967295 | 4 29 Fix
23 23 | drop 0 1 3 4 1 1 3 / drop 0 4 4 | accepted
23 23 | drop 0 1 3 4 / fix / mult row 0 327680 / mult row 1 327680 / table 0 both -65536 / fore 0 0 0 / fore 1 -131072 1 m 0 / fore 2 -65536 1 m 1 / fore 2 -327680 2 m 1 / fore 3 65536 1 / fore 3 -65536 2 / back 3 0 2 / back 1 196608 2 m 0 / back 2 262144 2 m 1 / back 1 65536 1 m 0 / back 2 196608 1 m 1 / back 2 65536 0 m 1 / back 1 0 0 m 0 / back 0 65536 1 / back 0 -65536 0 / drop 0 1 3 4 | accepted
23 23 | drop 0 1 3 | 24 26 Cover
23 23 |  | 23 26 Cover
7 7 | table 0 both 0 | 4 27 Sink
7 7 | table 0 both -131072 | accepted
14 14 |  | 4 25 Root
22 22 |  | 4 26 Cover
5 5 | mult row 0 327679 | accepted
24 31 |  | 24 32 Tail
24 31 | split var 0 0 | 25 32 Tail
7 7 | table 0 both none | 4 27 Sink
1 2 | optimal 12 / path 0 1 1 3 4 | 4 29 Fix
";

#[test]
fn fixes(rt: HostRuntime) -> Result<(), Fail> {
    table(&rt, rt.alloc(), SETS.as_bytes(), FIXED, OF_FIXED)
}
