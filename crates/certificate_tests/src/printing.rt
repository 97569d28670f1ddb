//! Texts of certificates that are read, and how they are printed. In a row stand the first and the last line that are
//! replaced, by what, and what is printed in their place: `same` is the same, and `none` is no line.

use crate::certs::{
    EVERY_LINE, FIXED, HALVES, INFEASIBLE, LINES_OF_TWO, LISTED, OPTIMAL, SPLIT, TWO_GRAPHS,
    WITH_CUT,
};
use crate::outcomes::{model_of, prints};
use std::test::Fail;
use test_models::edits::{Edit, edit_of, edited};
use test_models::texts::{CUSTOMERS, SETS};

const OF_EVERY_LINE: &str = "1 0 |  | same
1 0 | # a comment /  / \t # path \x00\x01\x7f é | none
1 1 | \toptimal  0009\t# 10 | optimal 9
1 1 | optimal -1099511627776 | same
1 1 | optimal -0 | optimal 0
2 3 |  | same
2 3 | path 9 1 9 / path 0 1 0 | same
2 2 | path\r00 01 00\r02 05 | path 0 1 0 2 5
4 4 | \t proof \t1 # 2 | proof 1
5 5 | split var 5 -9223372036854775808 | same
5 5 | split var 05 009223372036854775807 | split var 5 9223372036854775807
6 6 | split paths 0 -0 | split paths 0 0
5 38 | end | same
7 23 | fix | same
7 23 | close / list / point / fix | same
8 8 | mult var 0 0 | none
8 9 | mult var 0 -281474976710656 / mult var 1 0 / mult var 2 -0 / mult var 5 1 | mult var 0 -281474976710656 / mult var 5 1
12 13 | mult set 0 0 / mult set 1 0 / mult paths 0 0 | none
8 13 |  | same
14 14 | cut 0 281474976710656 0 | same
14 14 | cut 255 00 3 1 255 1 0 0 07 | cut 255 0 3 1 255 1 0 0 7
14 22 | cut 2 1 1 0 1 1 / table 0 full -0 / fore 3 -0 -0 s 00 / fore 1 1 1 m 00 01 s 7 | cut 2 1 1 0 1 1 / table 0 full 0 / fore 3 0 0 s 0 / fore 1 1 1 m 0 1 s 7
16 17 | near 0 0 / near 0 3 0 1 | same
16 17 |  | same
18 22 |  | same
18 18 | table 0 both none | same
25 25 | table 0 half -2147483648 5192296858534827628530496329220096 | same
25 27 | table 0 full none / fore 0 -5192296858534827628530496329220096 2147483647 / fore 3 0 -2147483648 | same
25 25 | table 0 half 00 none | table 0 half 0 none
23 23 | drop 0 1 1 0 | same
23 23 | drop 0 1 / drop 0 3 / drop 0 3 4294967295 | drop 0 1 3 3 4294967295
23 23 |  | same
28 30 |  | same
28 30 | tree 0 / tree 0 / tree 0 / pre 4294967295 00 | tree 0 / tree 0 / tree 0 / pre 4294967295 0
31 31 | csplit 4294967295 -1 | same
33 34 | mult var 0 0 / mult row 1 1 / mult paths 0 0 | mult row 1 1
35 35 | point / point / point | same
38 38 | end # end | end
39 39 | # end /  / \t | none
";

const OF_TWO: &str = "1 0 |  | same
4 7 | mult var 0 0 / mult row 0 1 / mult set 0 0 / mult set 1 1 / mult paths 0 0 / mult paths 1 -1 | mult row 0 1 / mult set 1 1 / mult paths 1 -1
12 12 | fore 01 04 1 02 -3 m 00 1 02 | fore 1 4 1 2 -3 m 0 1 2
16 18 | drop 0 0 1 / drop 0 2 / drop 1 0 / drop 1 0 / drop 0 1 | drop 0 0 1 2 / drop 1 0 0 / drop 0 1
16 18 | drop 1 0 / drop 0 0 / drop 1 0 / drop 0 0 | same
14 15 | table 1 both 0 / back 1 -1 -1 / back 0 0 0 | same
20 23 | tree 0 / pre 0 0 / tree 1 / tree 0 / pre 1 1 | same
";

/// One path of at most one step in the text with packing sets.
const ONE_STEP: &str =
    "11 15 | graph 4 0 3 0 1 1 0 / vertex - 0 1 / vertex 0 0 1 / vertex 1 0 1 / vertex - 0 1 | ";

#[test]
fn printed_again(rt: HostRuntime) -> Result<(), Fail> {
    for (model, text, rows) in [
        (SETS, EVERY_LINE, OF_EVERY_LINE),
        (TWO_GRAPHS, LINES_OF_TWO, OF_TWO),
    ] {
        let model = model_of(rt.alloc(), model.as_bytes())?;
        for row in rows.split_terminator('\n') {
            let (edit, expected) = edit_of(row)?;
            let lines = match expected {
                "same" => edit.lines,
                "none" => "",
                lines => lines,
            };
            let printed = edited(rt.alloc(), text, Edit { lines, ..edit })?;
            let text = edited(rt.alloc(), text, edit)?;
            prints(
                &rt,
                rt.alloc(),
                &model,
                text.as_slice(),
                printed.as_slice(),
                row,
            )?;
        }
    }
    Ok(())
}

#[test]
fn certificates(rt: HostRuntime) -> Result<(), Fail> {
    let (edit, _) = edit_of(ONE_STEP)?;
    let one_step = edited(rt.alloc(), SETS, edit)?;
    let sets = SETS.as_bytes();
    for (model, text) in [
        (sets, OPTIMAL),
        (CUSTOMERS.as_bytes(), WITH_CUT),
        (one_step.as_slice(), INFEASIBLE),
        (sets, SPLIT),
        (one_step.as_slice(), LISTED),
        (sets, HALVES),
        (sets, FIXED),
    ] {
        let model = model_of(rt.alloc(), model)?;
        prints(
            &rt,
            rt.alloc(),
            &model,
            text.as_bytes(),
            text.as_bytes(),
            text,
        )?;
    }
    Ok(())
}

#[test]
fn line_ends(rt: HostRuntime) -> Result<(), Fail> {
    let model = model_of(rt.alloc(), SETS.as_bytes())?;
    let mut returned = Vec::new(rt.alloc());
    for line in EVERY_LINE.lines() {
        returned.extend_from_slice(line.as_bytes())?;
        returned.extend_from_slice(b"\r\n")?;
    }
    let printed = EVERY_LINE.as_bytes();
    prints(
        &rt,
        rt.alloc(),
        &model,
        returned.as_slice(),
        printed,
        "CR and LF",
    )?;
    let lone = EVERY_LINE.trim().as_bytes();
    prints(&rt, rt.alloc(), &model, lone, printed, "no last LF")
}
