//! Texts that are read, and how the models are printed. In a row stand the first and the last line that are replaced, by
//! what, and what is printed in their place: `same` is the same, and `none` is no line.

use crate::outcomes::prints;
use crate::texts::WIDE;
use std::test::Fail;
use test_models::edits::{Edit, edit_of, edited};
use test_models::texts::SETS;

const OF_FOUR: &str = "1 0 |  | same
1 0 | # a comment /  / \t # var \x00\x01\x7f é | none
1 1 | vrpmodel 1 # 2 | vrpmodel 1
1 1 |  \tvrpmodel\t1\t | vrpmodel 1
2 2 | var  0\t2  3  | var 0 2 3
2 2 |  \t var 0 2 3 # note | var 0 2 3
2 2 | var 0 2 3# note | var 0 2 3
2 2 | var 0 2 3#4 # 5 | var 0 2 3
2 2 | var 0\r2\r\r3 | var 0 2 3
2 2 | var 00 002 0003 | var 0 2 3
2 2 | var -0 2 -0 | var 0 2 0
2 2 | var -00 02 -000003 | var 0 2 -3
2 2 | var 2 2 3 | same
2 2 | var 0 2 1000000000 | same
2 2 | var 0 2 -1000000000 | same
2 2 | var 1000000 1000000 1000000 | same
2 7 | var 0 524288 -2097152 / var 0 1 0 / var 0 0 9 / var 0 0 9 / var 0 0 9 / var 0 0 9 | same
8 8 | row -0 01 00 -01 0000003 1 | row 0 1 0 -1 3 1
8 8 | row * * | same
8 8 | row 1 1 | same
8 8 | row * 1 0 0 | same
8 8 | row 1 * 0 1 1 -2 2 3 3 -4 4 5 5 -6 | same
8 9 |  | same
8 9 | row * * 0 1000000 / row * * 0 -48576 | same
8 9 | row * * 0 -1000000 / row * * 0 48576 5 1000000 | same
8 9 | row -1000000000000 1000000000000 / row 1000000000000 * 5 -1000000 | same
10 10 | sets 512 | same
10 10 | sets 0000512 # 0 | sets 512
10 14 | graph 4 0 3 0 2 1 0 / vertex - 0 2 / vertex - 0 2 / vertex - 0 2 | same
10 14 | sets 0 / graph 4 0 3 0 2 1 0 / vertex - 0 2 / vertex - 0 2 / vertex - 0 2 | graph 4 0 3 0 2 1 0 / vertex - 0 2 / vertex - 0 2 / vertex - 0 2
11 11 | graph 4 0 3 0 0 1 0 | same
11 11 | graph 4 0 3 4096 4096 1 0 | same
11 11 | graph 04 -0 03 00 02 01 00 | graph 4 0 3 0 2 1 0
12 12 | vertex - -100000000 100000000 | same
13 14 | vertex 0 2 2 / vertex 0 -2 -2 | same
13 13 | vertex -0 -00 002 | vertex 0 0 2
16 16 | arc 0 1 100000000 0 1 2 3 4 5 | same
16 16 | arc 0 1 -0 | arc 0 1 0
16 16 | arc 00 01 01 00 | arc 0 1 1 0
16 21 |  | same
17 16 | arc 0 1 1 0 / arc 0 1 1 0 | same
18 18 | arc 1 1 1 2 | same
18 19 | arc 1 2 0 2 / arc 2 1 1 3 | same
18 19 | arc 1 2 0 2 / arc 1 2 0 3 | same
22 22 | end # end | end
23 23 | # end /  / \t | none
";

const OF_WIDE: &str = "1 0 |  | same
5 5 | row  * 04 00 -01 | row * 4 0 -1
7 7 | sets 512 | same
7 7 |  / # / sets 3 | sets 3
8 14 |  | same
15 18 |  | same
8 18 |  | same
7 18 | sets 0 | none
2 18 |  | same
10 10 | vertex - 5 5 9 9 -3 -3 | same
12 14 | arc 0 1 100000000 0 -100000000 / arc 1 2 0 1 100000000 2 | same
13 12 | arc 1 1 0 1 -1 / arc 1 1 1 0 -1 | same
15 15 | graph 2 1 0 1 4092 1 0 | same
15 18 | graph 2 0 1 0 0 2 4 / vertex - 0 1 0 2 0 3 0 4 0 5 0 6 / vertex - -6 1 -5 2 -4 3 -3 4 -2 5 -1 6 / arc 0 1 1 2 -3 4 -5 6 0 1 2 | same
15 18 | graph 3 1 2 0 0 1 0 / vertex 0 0 0 / vertex - 0 0 / vertex - 0 0 / arc 1 0 0 / arc 0 2 0 | same
";

#[test]
fn printed_again(rt: HostRuntime) -> Result<(), Fail> {
    for (text, rows) in [(SETS, OF_FOUR), (WIDE, OF_WIDE)] {
        for row in rows.split_terminator('\n') {
            let (edit, expected) = edit_of(row)?;
            let lines = match expected {
                "same" => edit.lines,
                "none" => "",
                lines => lines,
            };
            let printed = edited(rt.alloc(), text, Edit { lines, ..edit })?;
            let text = edited(rt.alloc(), text, edit)?;
            prints(&rt, rt.alloc(), text.as_slice(), printed.as_slice(), row)?;
        }
    }
    Ok(())
}

#[test]
fn line_ends(rt: HostRuntime) -> Result<(), Fail> {
    for text in [SETS, WIDE] {
        let mut returned = Vec::new(rt.alloc());
        for line in text.lines() {
            returned.extend_from_slice(line.as_bytes())?;
            returned.extend_from_slice(b"\r\n")?;
        }
        let printed = text.as_bytes();
        prints(&rt, rt.alloc(), returned.as_slice(), printed, "CR and LF")?;
        let lone = text.trim().as_bytes();
        prints(&rt, rt.alloc(), lone, printed, "no last LF")?;
    }
    Ok(())
}
