//! Texts with one fault, of each kind. In a row stand the first and the last line that are replaced, by what, and the
//! fault.

use crate::outcomes::refuses;
use crate::texts::WIDE;
use std::test::Fail;
use test_models::edits::{edit_of, edited};
use test_models::texts::SETS;

/// Faults of the text with four vertices.
const OF_FOUR: &str = "1 1 | vrpmodel 2 | 1 Version
1 1 | vrpmodel | 1 Version
1 1 | vrpmodel 1 1 | 1 Version
1 1 | vrpmodel 01 | 1 Version
1 1 | Vrpmodel 1 | 1 Version
1 1 | # a comment / vrp model | 2 Version
1 1 |  | 1 Version
2 2 | var 0 2 | 2 Word
2 2 | var 0 | 2 Word
2 2 | var | 2 Word
2 2 | var 0 2 # 3 | 2 Word
2 2 | var 0 2 3 4 | 2 Word
2 2 | Var 0 2 3 | 2 Word
2 2 | variable 0 2 3 | 2 Word
2 2 | va#r 0 2 3 | 2 Word
8 8 | row | 8 Word
8 8 | row 1 | 8 Word
8 8 | row 1 1 0 | 8 Word
8 8 | row 1 1 0 1 3 | 8 Word
10 10 | sets | 10 Word
10 10 | sets 2 2 | 10 Word
11 11 | graph 4 0 3 0 2 1 | 11 Word
11 11 | graph 4 0 3 0 2 1 0 0 | 11 Word
11 11 | path 0 1 0 2 5 | 11 Word
12 12 | vertex | 12 Word
12 12 | vertex - 0 | 12 Word
12 12 | vertex - 0 2 0 | 12 Word
16 16 | arc 0 1 | 16 Word
16 16 | arc | 16 Word
16 16 | limit 0 0 2 | 16 Word
22 22 | end end | 22 Word
22 22 | END | 22 Word
2 2 | var x 2 3 | 2 Number
2 2 | var 0 2 three | 2 Number
2 2 | var 0 2 3.0 | 2 Number
2 2 | var 0 2 +3 | 2 Number
2 2 | var 0 2 - | 2 Number
2 2 | var 0 2 --3 | 2 Number
2 2 | var 0 2 3- | 2 Number
2 2 | var 0 2 0x3 | 2 Number
2 2 | var 0 2 1,000 | 2 Number
2 2 | var * 2 3 | 2 Number
8 8 | row - 1 0 1 | 8 Number
8 8 | row ** 1 0 1 | 8 Number
8 8 | row 1 1 * 1 | 8 Number
8 8 | row 1 1 0 * | 8 Number
10 10 | sets - | 10 Number
11 11 | graph four 0 3 0 2 1 0 | 11 Number
11 11 | graph 4 - 3 0 2 1 0 | 11 Number
12 12 | vertex * 0 2 | 12 Number
12 12 | vertex -- 0 2 | 12 Number
12 12 | vertex - - 2 | 12 Number
16 16 | arc - 1 1 0 | 16 Number
16 16 | arc 0 1 1 - | 16 Number
2 2 | var 0 2 1000000001 | 2 Range
2 2 | var 0 2 -1000000001 | 2 Range
2 2 | var -1 2 3 | 2 Range
2 2 | var 0 1000001 3 | 2 Range
2 2 | var 0 2 340282366920938463463374607431768211457 | 2 Range
8 8 | row -1000000000001 1 0 1 | 8 Range
8 8 | row 1 1000000000001 0 1 | 8 Range
8 8 | row 1 1 0 1000001 | 8 Range
8 8 | row 1 1 0 -1000001 | 8 Range
10 10 | sets 513 | 10 Range
10 10 | sets -1 | 10 Range
11 11 | graph 1 0 3 0 2 1 0 | 11 Range
11 11 | graph 1025 0 3 0 2 1 0 | 11 Range
11 11 | graph 4 0 3 -1 2 1 0 | 11 Range
11 11 | graph 4 0 3 0 4097 1 0 | 11 Range
11 11 | graph 4 0 3 0 2 0 0 | 11 Range
11 11 | graph 4 0 3 0 2 3 0 | 11 Range
11 11 | graph 4 0 3 0 2 1 5 | 11 Range
11 11 | graph 4 0 3 0 2 1 -1 | 11 Range
12 12 | vertex - -100000001 2 | 12 Range
12 12 | vertex - 0 100000001 | 12 Range
16 16 | arc 0 1 100000001 0 | 16 Range
2 1 | row * * | 3 Order
2 1 | vrpmodel 1 | 2 Order
2 1 | arc 0 1 1 0 | 2 Order
2 1 | vertex - 0 2 | 2 Order
9 8 | var 0 2 3 | 9 Order
11 10 | row * * | 11 Order
11 10 | var 0 0 0 | 11 Order
11 10 | sets 2 | 11 Order
11 10 | arc 0 1 1 0 | 11 Order
11 10 | vertex - 0 2 | 11 Order
13 12 | arc 0 1 1 0 | 13 Order
15 15 |  | 15 Order
15 22 | end | 15 Order
16 15 | vertex - 0 2 | 16 Order
17 16 | vertex - 0 2 | 17 Order
17 16 | row * * | 17 Order
17 16 | sets 2 | 17 Order
17 16 | var 0 0 0 | 17 Order
8 8 | row 1 1 3 1 0 1 | 8 Order
8 8 | row 1 1 3 1 3 1 | 8 Order
16 16 | arc 0 1 1 1 0 | 16 Order
16 16 | arc 0 1 1 0 2 2 | 16 Order
8 8 | row 1 1 6 1 | 8 Unknown
8 8 | row 1 1 -1 1 | 8 Unknown
8 8 | row 1 1 99999999999999999999 1 | 8 Unknown
12 12 | vertex 2 0 2 | 12 Unknown
13 13 | vertex -1 0 2 | 13 Unknown
10 10 |  | 12 Unknown
10 10 | sets 1 | 14 Unknown
11 11 | graph 4 4 3 0 2 1 0 | 11 Unknown
11 11 | graph 4 0 4 0 2 1 0 | 11 Unknown
11 11 | graph 4 -1 3 0 2 1 0 | 11 Unknown
11 11 | graph 4 0 4294967299 0 2 1 0 | 11 Unknown
16 16 | arc 4 1 1 0 | 16 Unknown
16 16 | arc 0 4 1 0 | 16 Unknown
16 16 | arc -1 1 1 0 | 16 Unknown
16 16 | arc 0 1 1 6 | 16 Unknown
16 16 | arc 0 1 1 -1 | 16 Unknown
22 22 |  | 22 EndMissing
22 22 | # end | 23 EndMissing
22 22 |   /  | 24 EndMissing
2 22 |  | 2 EndMissing
1 22 |  | 1 EndMissing
1 22 | # nothing | 2 EndMissing
23 23 | x | 23 AfterEnd
23 23 | end | 23 AfterEnd
23 23 | vrpmodel 1 | 23 AfterEnd
23 23 | arc 0 1 1 0 | 23 AfterEnd
23 23 | # a comment /  / x | 25 AfterEnd
2 1 | end | 3 AfterEnd
11 11 | graph 4 3 3 0 2 1 0 | 11 Ends
11 11 | graph 4 0 0 0 2 1 0 | 11 Ends
12 12 | vertex 0 0 2 | 12 Ends
15 15 | vertex 1 0 2 | 15 Ends
16 16 | arc 3 1 1 0 | 16 Ends
16 16 | arc 1 0 1 0 | 16 Ends
12 12 | vertex - 5 4 | 12 Window
13 13 | vertex 0 0 -1 | 13 Window
13 13 | vertex 0 -99999999 -100000000 | 13 Window
16 16 | arc 0 1 -1 0 | 16 MainNegative
20 20 | arc 1 3 -100000000 4 | 20 MainNegative
18 19 | arc 1 2 0 2 / arc 2 1 0 3 | 22 FreeCycle
18 18 | arc 1 1 0 2 | 22 FreeCycle
18 23 | arc 1 2 0 / arc 2 1 -0 / end / # more | 20 FreeCycle
2 2 | var 2 1 3 | 2 Box
2 2 | var 1000000 0 3 | 2 Box
8 8 | row 1 0 0 1 3 1 | 8 Box
8 8 | row 0 -1 0 1 3 1 | 8 Box
11 11 | graph 4 0 3 2 1 1 0 | 11 Box
11 11 | graph 4 0 3 4096 0 1 0 | 11 Box
2 2 | var 0 1000000 1000000000 | 22 CostRange
2 2 | var 0 1000000 -1099512 | 22 CostRange
2 7 | var 0 524288 -2097152 / var 0 1 1 / var 0 0 0 / var 0 0 0 / var 0 0 0 / var 0 0 0 | 22 CostRange
8 9 | row * * 0 1000000 / row * * 0 48577 | 9 TooMany
8 9 | row * * 0 -1000000 / row * * 0 48577 | 9 TooMany
8 9 | row * * 0 524289 5 9 / row * * 0 -524288 | 9 TooMany
2 2 | var 0 2 3\x7f | 2 Byte
2 2 | v\x01r 0 2 3 | 2 Byte
2 2 | var 0 2 é | 2 Byte
2 2 |  \x0b | 2 Byte
23 23 | \x00 | 23 Byte
";

/// Faults of the text with two graphs.
const OF_WIDE: &str = "9 9 | vertex - 0 5 0 9 -3 | 9 Word
9 9 | vertex - 0 5 0 9 -3 3 3 | 9 Word
12 12 | arc 0 1 1 0 | 12 Word
12 12 | arc 0 1 1 0 x 0 1 | 12 Number
12 12 | arc 0 1 1 0 -100000001 0 1 | 12 Range
12 12 | arc 0 1 1 0 100000001 0 1 | 12 Range
9 9 | vertex - 0 5 0 9 -3 100000001 | 9 Range
12 12 | arc 0 1 1 0 -2 1 0 | 12 Order
16 16 | vertex - 0 1 / arc 1 0 1 2 | 17 Order
12 12 | arc 0 1 1 0 -2 3 | 12 Unknown
18 18 | arc 2 0 1 2 | 18 Unknown
10 10 | vertex 3 1 5 2 9 -3 3 | 10 Unknown
16 16 | vertex 0 0 1 | 16 Ends
18 18 | arc 0 1 1 2 | 18 Ends
18 18 | arc 1 1 1 2 | 18 Ends
10 10 | vertex 2 1 5 2 1 -3 3 | 10 Window
10 10 | vertex 2 1 5 2 9 4 3 | 10 Window
12 12 | arc 0 1 1 -1 -2 0 1 | 12 MainNegative
12 12 | arc 0 1 -1 0 -2 0 1 | 12 MainNegative
13 12 | arc 1 1 0 0 -1 | 20 FreeCycle
13 12 | arc 1 1 0 0 0 | 20 FreeCycle
17 18 | vertex - 0 1 / arc 1 0 0 / arc 1 0 0 / end / end | 21 AfterEnd
15 15 | graph 2 1 0 1 4093 1 0 | 15 TooMany
8 8 | graph 3 0 2 0 4096 2 1 | 15 TooMany
";

#[test]
fn faults(rt: HostRuntime) -> Result<(), Fail> {
    for (text, rows) in [(SETS, OF_FOUR), (WIDE, OF_WIDE)] {
        for row in rows.lines() {
            let (edit, expected) = edit_of(row)?;
            let text = edited(rt.alloc(), text, edit)?;
            refuses(&rt, rt.alloc(), text.as_slice(), expected, row)?;
        }
    }
    Ok(())
}
