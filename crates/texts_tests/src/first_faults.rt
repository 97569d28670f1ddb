//! Texts with two faults or more, of which the first in the order is answered. In a row stand the first and the last
//! line that are replaced, by what, and the fault.

use crate::outcomes::refuses;
use crate::texts::WIDE;
use std::test::Fail;
use test_models::edits::{edit_of, edited};
use test_models::texts::SETS;

/// Two faults of one line of the text with four vertices: the kinds in their order, then the words in theirs.
const IN_A_LINE: &str = "1 1 | vrpmodel 2 \x01 | 1 Byte
1 1 | end x | 1 Version
1 1 | row * 1 0 | 1 Version
2 2 | v 0 \x7f | 2 Byte
23 23 | x \x01 | 23 Byte
23 23 | var x | 23 AfterEnd
23 23 | graph 4 0 | 23 AfterEnd
12 12 | v x | 12 Word
9 8 | v 2 1 3 | 9 Word
9 8 | var 2 1 x | 9 Order
13 12 | graph 4 0 | 13 Order
17 16 | vertex 5 | 17 Order
16 15 | vertex - 5 4 | 16 Order
15 15 | end end | 15 Order
2 2 | var x | 2 Number
2 2 | var 0 x | 2 Number
2 2 | var 0 2 x 5 | 2 Number
2 2 | var x 1000001 3 | 2 Number
2 2 | var 1000001 x 3 | 2 Range
2 2 | var 1000001 | 2 Range
2 2 | var 2 -1 3 | 2 Range
2 2 | var 2 1 | 2 Box
2 2 | var 2 1 x | 2 Box
2 2 | var 2 1 1000000001 | 2 Box
2 2 | var 2 1 3 3 | 2 Box
2 2 | var 0 2 1000000001 3 | 2 Range
8 8 | row 1000000000001 0 9 1 | 8 Range
8 8 | row 1 -1000000000001 9 1 | 8 Range
8 8 | row 2 1 9 1 | 8 Box
8 8 | row 2 1 0 | 8 Box
8 8 | row 1 1 9 1000001 | 8 Unknown
8 8 | row 1 1 9 | 8 Unknown
8 8 | row 1 1 0 1000001 9 1 | 8 Range
8 8 | row 1 1 3 1 -1 1 | 8 Unknown
8 8 | row 1 1 3 1 -1 x | 8 Unknown
8 8 | row 1 1 3 1 3 x | 8 Order
8 8 | row 1 1 3 1 0 | 8 Order
8 8 | row 1 1 0 1 x | 8 Number
8 8 | row 1 1 0 x 0 1 | 8 Number
10 10 | sets 513 2 | 10 Range
10 10 | sets x 2 | 10 Number
11 11 | graph 4 3 3 x | 11 Ends
11 11 | graph 4 3 3 2 1 1 0 | 11 Ends
11 11 | graph 4 4 4 0 2 1 0 | 11 Unknown
11 11 | graph 4 0 | 11 Word
11 11 | graph 1025 1025 1025 0 2 1 0 | 11 Range
11 11 | graph 4 0 3 2 1 3 5 | 11 Box
11 11 | graph 4 0 3 2 -1 1 0 | 11 Range
11 11 | graph 4 0 3 0 2 3 x | 11 Range
11 11 | graph 4 0 3 0 2 1 0 5 5 | 11 Word
12 12 | vertex 2 0 2 | 12 Unknown
12 12 | vertex 0 5 4 | 12 Ends
12 12 | vertex 0 | 12 Ends
12 12 | vertex 0 x 4 | 12 Ends
12 12 | vertex - 5 4 4 | 12 Window
12 12 | vertex - 5 -100000001 | 12 Range
16 16 | arc 3 0 1 0 | 16 Ends
16 16 | arc 3 4 1 0 | 16 Ends
16 16 | arc 4 0 1 0 | 16 Unknown
16 16 | arc 1 0 x 0 | 16 Ends
16 16 | arc 3 | 16 Ends
16 16 | arc 0 1 -100000001 0 | 16 Range
16 16 | arc 0 1 -1 6 | 16 MainNegative
16 16 | arc 0 1 -1 x | 16 MainNegative
16 16 | arc 0 1 1 3 -1 | 16 Unknown
16 16 | arc 0 1 1 3 3 x | 16 Order
8 9 | row * * 0 1000000 / row * * 0 1000001 | 9 Range
8 9 | row * * 0 1000000 / row * * 0 48577 9 | 9 TooMany
8 9 | row * * 0 1000000 / row * * 0 48577 0 | 9 TooMany
8 9 | row * * 0 1000000 / row * * 0 48577 1 | 9 TooMany
";

/// Faults of several lines, or of a line and of the whole text.
const IN_THE_TEXT: &str = "2 3 | var 2 1 3 / var x | 2 Box
2 3 | var 0 2 3 3 / v | 2 Word
2 22 | var 0 2 x | 2 Number
15 22 | vertex - 5 4 | 15 Window
18 22 | arc 1 2 0 / arc 2 1 0 | 20 EndMissing
2 22 | var 0 1000000 1000000000 | 3 EndMissing
18 23 | arc 1 2 0 / arc 2 1 0 / end / x | 21 AfterEnd
18 23 | arc 1 2 0 / arc 2 1 0 / end / \x01 | 21 Byte
18 23 | arc 1 2 0 / arc 2 1 0 / end end | 20 Word
2 23 | var 0 1000000 1000000000 / end / end | 4 AfterEnd
2 19 | var 0 1000000 1000000000 / graph 2 0 1 0 0 1 0 / vertex - 0 0 / vertex - 0 0 / arc 0 0 0 | 6 Ends
2 23 | var 0 1000000 1000000000 / graph 3 0 2 0 0 1 0 / vertex - 0 0 / vertex - 0 0 / vertex - 0 0 / arc 1 1 0 / end | 8 FreeCycle
";

/// Two faults of one line of the text with two graphs.
const OF_WIDE: &str = "15 15 | graph 2 1 0 4093 4094 1 0 | 15 TooMany
15 15 | graph 2 1 0 4094 4093 1 0 | 15 Box
15 15 | graph 2 1 0 1 4097 1 0 | 15 Range
15 15 | graph 2 1 0 1 4093 x | 15 TooMany
15 15 | graph 2 1 0 1 4093 3 0 | 15 TooMany
15 15 | graph 2 1 0 1 4093 | 15 TooMany
12 12 | arc 0 1 1 -1 x | 12 MainNegative
12 12 | arc 0 1 1 x -2 | 12 Number
12 12 | arc 0 1 -1 x -2 | 12 MainNegative
10 10 | vertex 2 1 0 2 1 -3 3 | 10 Window
10 10 | vertex 2 1 0 x | 10 Window
10 10 | vertex 2 1 x 2 1 | 10 Number
18 18 | arc 0 0 0 | 18 Ends
";

#[test]
fn first_faults(rt: HostRuntime) -> Result<(), Fail> {
    for (text, rows) in [(SETS, IN_A_LINE), (SETS, IN_THE_TEXT), (WIDE, OF_WIDE)] {
        for row in rows.lines() {
            let (edit, expected) = edit_of(row)?;
            let text = edited(rt.alloc(), text, edit)?;
            refuses(&rt, rt.alloc(), text.as_slice(), expected, row)?;
        }
    }
    Ok(())
}
