//! Texts of certificates with one fault, of each kind. In a row stand the first and the last line that are replaced, by
//! what, and the fault.

use crate::certs::{EVERY_LINE, LINES_OF_TWO, TWO_GRAPHS};
use crate::outcomes::{model_of, refuses};
use std::test::Fail;
use test_models::edits::{edit_of, edited};
use test_models::texts::SETS;

/// Faults of the text with lines of every kind.
const OF_EVERY_LINE: &str = "4 4 | proof 2 | 4 Version
4 4 | proof | 4 Version
4 4 | proof 1 1 | 4 Version
4 4 | proof 01 | 4 Version
4 4 | value 0 1 / proof 1 | 4 Version
4 4 | close | 4 Version
4 4 |  | 4 Version
2 4 | end | 2 Version
1 1 | Optimal 9 | 1 Word
1 1 | optimal | 1 Word
1 1 | optimal 9 9 | 1 Word
1 1 | certificate 9 | 1 Word
2 2 | path 0 1 | 2 Word
5 5 | split row 0 0 | 5 Word
5 5 | split var 3 | 5 Word
5 5 | split var 3 -1 0 | 5 Word
6 6 | split sets 0 1 | 6 Word
7 7 | fix 0 | 7 Word
8 8 | mult cut 0 1 | 8 Word
8 8 | mult var 0 | 8 Word
8 8 | mult var 0 -5 1 | 8 Word
8 8 | mult | 8 Word
14 14 | cut 2 131072 2 0 1 1 | 14 Word
14 14 | cut 2 131072 3 0 1 1 1 | 14 Word
14 14 | cut 2 | 14 Word
16 16 | near 0 | 16 Word
18 18 | table 0 all 0 | 18 Word
18 18 | table 0 both | 18 Word
18 18 | table 0 both 0 0 | 18 Word
18 18 | table 0 full none none | 18 Word
25 25 | table 0 half 1 | 25 Word
25 25 | table 0 half | 25 Word
19 19 | fore 0 0 s 0 0 | 19 Number
19 19 | fore 0 0 | 19 Word
19 19 | fore 0 0 0 0 s 0 0 | 19 Word
19 19 | fore 0 0 0 | 19 Word
19 19 | fore 0 0 0 s 0 | 19 Word
19 19 | fore 0 0 0 s 0 0 0 | 19 Word
19 19 | fore 0 0 0 m s 0 0 | 19 Word
20 20 | fore 2 0 2 m 0 1 t 1 1 | 20 Number
20 20 | fore 2 0 2 m 0 1 | 20 Word
26 26 | fore 0 0 0 s 0 | 26 Word
26 26 | fore 0 0 0 s | 26 Word
26 26 | fore 0 0 0 m | 26 Word
27 27 | back 3 0 2 m 1 s | 27 Word
26 26 | fore 0 0 | 26 Word
26 26 | fore 0 0 0 0 | 26 Word
23 23 | drop 0 | 23 Word
23 23 | drop | 23 Word
28 28 | tree | 28 Word
28 28 | tree 0 0 | 28 Word
29 29 | pre 0 | 29 Word
29 29 | pre 0 1 1 | 29 Word
31 31 | csplit 4 | 31 Word
32 32 | cclose 0 | 32 Word
35 35 | point 0 | 35 Word
5 5 | value 0 1 | 5 Word
8 8 | value 0 1 | 8 Word
38 38 | value 0 1 | 38 Word
38 38 | end 0 | 38 Word
36 36 | Close | 36 Word
1 1 | optimal nine | 1 Number
2 2 | path - 1 0 | 2 Number
5 5 | split var x 0 | 5 Number
5 5 | split var 3 0.5 | 5 Number
8 8 | mult var 0 +5 | 8 Number
8 8 | mult var - 5 | 8 Number
14 14 | cut two 131072 2 0 1 1 1 0 1 | 14 Number
14 14 | cut 2 131072 2 0 1 1 m | 14 Number
14 14 | cut 2 131072 2 0 1 1 1 m | 14 Number
16 16 | near 0 v | 16 Number
16 16 | near 0 1 m | 16 Number
18 18 | table zero both 0 | 18 Number
18 18 | table 0 both None | 18 Number
18 18 | table 0 both least | 18 Number
25 25 | table 0 half none 0 | 25 Number
19 19 | fore 0 cost 0 s 0 0 | 19 Number
19 19 | fore 0 0 0 s 0 none | 19 Number
26 26 | fore 0 0 m 0 | 26 Number
23 23 | drop 0 1 x | 23 Number
29 29 | pre root 1 | 29 Number
31 31 | csplit 4 * | 31 Number
1 1 | optimal 1099511627777 | 1 Range
1 1 | optimal -1099511627777 | 1 Range
2 2 | path 0 4097 0 | 2 Range
2 2 | path 4294967296 1 0 | 2 Range
5 5 | split var 3 9223372036854775808 | 5 Range
5 5 | split var 3 -9223372036854775809 | 5 Range
10 10 | mult row 0 281474976710657 | 10 Range
10 10 | mult row 0 -281474976710657 | 10 Range
14 14 | cut 256 131072 2 0 1 1 1 0 1 | 14 Range
14 14 | cut -1 131072 2 0 1 1 1 0 1 | 14 Range
14 14 | cut 2 281474976710657 2 0 1 1 1 0 1 | 14 Range
14 14 | cut 2 -1 2 0 1 1 1 0 1 | 14 Range
14 14 | cut 2 131072 4294967296 0 1 1 1 0 1 | 14 Range
14 14 | cut 2 131072 2 0 256 1 1 0 1 | 14 Range
18 18 | table 0 both 5192296858534827628530496329220097 | 18 Range
18 18 | table 0 both -5192296858534827628530496329220097 | 18 Range
25 25 | table 0 half 2147483648 none | 25 Range
25 25 | table 0 half -2147483649 none | 25 Range
19 19 | fore 0 5192296858534827628530496329220097 0 s 0 0 | 19 Range
19 19 | fore 0 0 2147483648 s 0 0 | 19 Range
19 19 | fore 0 0 0 s 0 256 | 19 Range
19 19 | fore 0 0 0 s -1 0 | 19 Range
22 22 | back 1 0 -2147483649 s 1 1 | 22 Range
23 23 | drop 0 -1 | 23 Range
23 23 | drop 0 1 4294967296 | 23 Range
29 29 | pre -1 1 | 29 Range
29 29 | pre 0 4294967296 | 29 Range
31 31 | csplit 4294967296 0 | 31 Range
31 31 | csplit 4 9223372036854775808 | 31 Range
1 1 | path 0 1 0 2 5 | 1 Order
1 1 | infeasible | 2 Order
1 1 | proof 1 | 1 Order
1 1 | end | 1 Order
5 5 | optimal 9 | 5 Order
5 5 | path 0 1 0 | 5 Order
5 5 | proof 1 | 5 Order
5 5 | mult var 0 1 | 5 Order
6 6 | split paths 0 2 / mult var 0 1 | 7 Order
9 9 | mult var 0 1 | 9 Order
10 10 | mult var 4 1 | 10 Order
12 12 | mult set 1 7 / mult set 1 7 | 13 Order
13 13 | mult paths 0 -3 / mult row 0 1 | 14 Order
15 15 | mult paths 0 1 | 15 Order
14 14 | cut 2 131072 2 0 1 1 1 1 0 | 14 Order
14 14 | cut 2 131072 2 0 1 1 1 1 1 | 14 Order
16 16 | near 0 1 1 0 | 16 Order
17 17 | near 0 1 | 17 Order
17 17 | near 0 0 | 17 Order
17 17 | cut 3 0 1 1 2 | 17 Order
18 18 | near 0 3 / back 3 0 0 s 0 0 | 19 Order
18 18 | fore 0 0 0 s 0 0 | 18 Order
20 20 | near 0 3 | 20 Order
20 20 | table 0 both 0 | 20 Order
20 20 | fore 2 0 2 m 1 0 s 1 1 | 20 Order
22 22 | fore 0 0 0 s 0 0 | 22 Order
22 22 | tree 0 | 22 Order
24 24 | fore 0 0 0 s 0 0 | 24 Order
24 24 | mult var 0 1 | 24 Order
28 28 | pre 0 1 | 28 Order
28 28 | drop 0 1 | 28 Order
30 30 | table 0 both 0 | 30 Order
32 32 | mult var 2 4 | 32 Order
34 34 | cut 2 1 1 0 1 | 34 Order
36 36 | table 0 full none | 36 Order
37 37 | table 0 full none / back 3 0 0 | 38 Order
5 5 | split var 6 0 | 5 Unknown
5 5 | split var -1 0 | 5 Unknown
5 5 | split paths 1 0 | 5 Unknown
8 8 | mult var 6 1 | 8 Unknown
10 10 | mult row 2 1 | 10 Unknown
12 12 | mult set 2 1 | 12 Unknown
13 13 | mult paths 1 1 | 13 Unknown
14 14 | cut 2 131072 2 0 1 2 1 0 1 | 14 Unknown
14 14 | cut 2 131072 2 0 1 1 1 0 2 | 14 Unknown
16 16 | near 1 1 0 1 | 16 Unknown
16 16 | near 0 4 0 1 | 16 Unknown
16 16 | near 0 1 0 512 | 16 Unknown
18 18 | table 1 both 0 | 18 Unknown
18 18 | table 99999999999999999999999999999999999999999 both 0 | 18 Unknown
19 19 | fore 4 0 0 s 0 0 | 19 Unknown
20 20 | fore 2 0 2 m 0 2 s 1 1 | 20 Unknown
22 22 | back -1 0 0 s 1 1 | 22 Unknown
23 23 | drop 1 0 | 23 Unknown
28 28 | tree 1 | 28 Unknown
38 38 |  | 38 EndMissing
38 38 | # end | 39 EndMissing
2 38 |  | 2 EndMissing
1 38 |  | 1 EndMissing
30 38 |  | 30 EndMissing
39 39 | end | 39 AfterEnd
39 39 | x | 39 AfterEnd
39 39 | # more /  / point | 41 AfterEnd
5 5 | end | 6 AfterEnd
3 3 | path 0 4096 1 5 | 3 TooMany
3 3 | path 7 4096 0 / path 7 1 0 | 4 TooMany
2 2 | path 0 4095 0 | 3 TooMany
1 1 | optimal 9\x00 | 1 Byte
8 8 | mult var 0 -5 \x7f | 8 Byte
19 19 | fore 0 0 0 s 0 0 é | 19 Byte
39 39 | \x0b | 39 Byte
";

/// Faults of the text with two graphs.
const OF_TWO: &str = "6 6 | mult set 3 5 | 6 Unknown
7 7 | mult paths 2 6 | 7 Unknown
5 5 | mult row 1 -1 | 5 Unknown
9 9 | near 1 0 / near 0 2 | 10 Order
10 10 | near 1 0 0 2 1 | 10 Order
10 10 | near 1 2 | 10 Unknown
8 8 | near 0 3 | 8 Unknown
11 11 | table 1 full 3 / table 0 full 3 | 12 Order
14 14 | table 0 full 3 | 14 Order
14 14 | table 1 none | 14 Word
12 12 | fore 1 4 1 2 m 2 | 12 Number
12 12 | fore 1 4 1 2 -3 0 | 12 Word
13 13 | fore 0 -4 -1 0 | 13 Word
13 13 | fore 0 -4 | 13 Word
13 13 | fore 3 -4 -1 0 3 | 13 Unknown
15 15 | back 2 0 1 | 15 Unknown
15 15 | back 0 0 1 2 | 15 Word
15 15 | back 0 0 | 15 Word
15 15 | fore 0 0 1 / fore 1 0 1 / back 0 0 1 / back 1 0 1 / fore 0 0 1 | 19 Order
13 13 | back 0 -4 -1 0 3 | 13 Order
20 20 | tree 2 | 20 Unknown
2 1 | path 0 1 0 | 2 Order
2 1 | value 0 1 | 2 Version
";

/// Texts with two faults or more, of which the first is told.
const FIRST_OF_SEVERAL: &str = "1 1 | optimal nine \x01 | 1 Byte
4 4 | proof 2 \x7f | 4 Byte
8 8 | mult cut x | 8 Word
8 8 | mult var x 281474976710657 | 8 Number
8 8 | mult var 6 281474976710657 | 8 Unknown
9 9 | mult var 0 x | 9 Order
9 9 | mult var 6 x | 9 Unknown
11 11 | mult var 7 x | 11 Order
11 11 | mult sets 7 x | 11 Word
13 13 | mult paths 0 x 1 | 13 Number
14 14 | cut 256 x 2 | 14 Range
14 14 | cut 2 131072 2 0 256 2 1 | 14 Range
14 14 | cut 2 131072 2 2 256 1 1 | 14 Unknown
14 14 | cut 2 131072 2 0 1 1 1 1 2 | 14 Unknown
16 16 | near 1 9 | 16 Unknown
17 17 | near 0 0 2 | 17 Order
17 17 | near 0 1 x | 17 Order
18 18 | table 0 half x none | 18 Number
18 18 | table 1 full | 18 Unknown
18 18 | table 0 some x | 18 Word
18 18 | table 0 full 5192296858534827628530496329220097 0 | 18 Range
19 19 | fore 4 x 0 s 0 0 | 19 Unknown
19 19 | fore 0 x y s 0 0 | 19 Number
19 19 | fore 0 0 2147483648 m s 0 | 19 Range
19 19 | fore 0 0 0 m 2 1 s 0 0 | 19 Unknown
20 20 | fore 2 0 2 m 1 0 s 1 256 | 20 Order
22 22 | fore 4 x | 22 Order
23 23 | drop 1 x | 23 Unknown
23 23 | drop 0 4294967296 x | 23 Range
29 29 | pre 4294967296 x | 29 Range
31 31 | csplit x | 31 Number
5 5 | split var 6 x | 5 Unknown
5 5 | split row x | 5 Word
1 2 | infeasible / path x | 2 Order
37 38 | table 0 full none / back x | 38 Order
36 38 | close / fore x | 37 Order
39 39 | x # / end | 39 AfterEnd
6 8 | split paths 0 x / fix 0 | 6 Number
38 39 | point / x | 39 Word
3 4 | path 0 4096 x / proof 2 | 3 TooMany
3 3 | path 0 4095 x | 3 Number
";

#[test]
fn faults(rt: HostRuntime) -> Result<(), Fail> {
    let tables = [
        (SETS, EVERY_LINE, OF_EVERY_LINE),
        (SETS, EVERY_LINE, FIRST_OF_SEVERAL),
        (TWO_GRAPHS, LINES_OF_TWO, OF_TWO),
    ];
    for (model, text, rows) in tables {
        let model = model_of(rt.alloc(), model.as_bytes())?;
        for row in rows.lines() {
            let (edit, expected) = edit_of(row)?;
            let text = edited(rt.alloc(), text, edit)?;
            refuses(&rt, rt.alloc(), &model, text.as_slice(), expected, row)?;
        }
    }
    Ok(())
}
