//! What `print` answers. The expected values are worked out by hand.

use crate::running::{answers, edits_answer, inputs_answer};
use std::test::Fail;
use test_models::edits::{Edit, edit_of, edited};
use test_models::texts;

/// The text with packing sets, spelled otherwise.
const SPELLED_OTHERWISE: &str = "# four vertices, of which two are visited

\tvrpmodel  1 # the version
var 00 02 003
var\t0\t2\t4
  var 0 2 2
var -0 2 5# var 0 2 6
var 0 2 3 \r
var 0 2 4
 # the visits \x01
row 01 1 0 1  3 0001
row 1 1 1 1 2 1 # row 1 1
sets 0002

graph 04 00 3 0 2 1 -0
vertex - -0 2
vertex 00 0 2
\t vertex\t1\t0\t2
vertex - 0 2
# \x7f
arc 0 1 01 0
arc 0 2 1 1
arc 1 2 1 2
arc 2 1 1 3
arc 1 3 -00 4
arc 2 3 0 5
  end  # end

# no more
\t";

#[test]
fn printed(rt: HostRuntime) -> Result<(), Fail> {
    for (name, input, text) in [
        ("four vertices", texts::FOUR, texts::FOUR),
        ("packing sets", texts::SETS, texts::SETS),
        ("packing sets otherwise", SPELLED_OTHERWISE, texts::SETS),
        ("three customers", texts::CUSTOMERS, texts::CUSTOMERS),
        ("two graphs", texts::GRAPHS, texts::GRAPHS),
        ("arcs that pay", texts::PAYS, texts::PAYS),
    ] {
        answers(
            &rt,
            rt.alloc(),
            "print",
            input.as_bytes(),
            0,
            text.as_bytes(),
            name,
        )?;
    }
    Ok(())
}

/// Edits of the text with packing sets, each with the lines that are printed in their place; `none` is no line.
const EDITS: &str = "2 2 | var  0\t2  3 | var 0 2 3
2 2 | var 000 02 -0003 # note | var 0 2 -3
8 9 | row * 1 0 1 / row 01 * 5 -0 | row * 1 0 1 / row 1 * 5 0
8 9 | row * * | row * *
8 9 |  | none
10 10 | sets 512 | sets 512
10 14 | sets 0 / graph 4 0 3 0 2 1 0 / vertex - 0 2 / vertex - 0 2 / vertex - 0 2 | graph 4 0 3 0 2 1 0 / vertex - 0 2 / vertex - 0 2 / vertex - 0 2
10 14 | graph 4 0 3 0 2 1 0 / vertex - 0 2 / vertex - 0 2 / vertex - 0 2 | graph 4 0 3 0 2 1 0 / vertex - 0 2 / vertex - 0 2 / vertex - 0 2
11 21 | graph 2 1 0 00 2 2 4 / vertex - -9 9 -8 8 -7 7 -6 6 -5 5 -4 4 / vertex - 0 0 0 0 0 0 0 0 0 0 0 0 / arc 1 0 1 02 -3 4 -5 6 0 1 2 3 4 5 | graph 2 1 0 0 2 2 4 / vertex - -9 9 -8 8 -7 7 -6 6 -5 5 -4 4 / vertex - 0 0 0 0 0 0 0 0 0 0 0 0 / arc 1 0 1 2 -3 4 -5 6 0 1 2 3 4 5
2 21 |  | none
23 23 | # end /  / \t | none
";

#[test]
fn printed_again(rt: HostRuntime) -> Result<(), Fail> {
    for row in EDITS.lines() {
        let (edit, expected) = edit_of(row)?;
        let lines = match expected {
            "none" => "",
            lines => lines,
        };
        let input = edited(rt.alloc(), texts::SETS, edit)?;
        let text = edited(rt.alloc(), texts::SETS, Edit { lines, ..edit })?;
        // What is printed is printed again as it is.
        for input in [&input, &text] {
            answers(
                &rt,
                rt.alloc(),
                "print",
                input.as_slice(),
                0,
                text.as_slice(),
                row,
            )?;
        }
    }
    Ok(())
}

/// Faults of that text.
const FAULTS: &str = "1 1 | vrpmodel 01 | 3 | refused model 1 1 Version
9 9 | row 1 1 1 1 2 | 3 | refused model 9 2 Word
20 20 | arc 1 3 0.0 4 | 3 | refused model 20 3 Number
11 11 | graph 4 0 3 0 2 3 0 | 3 | refused model 11 4 Range
17 17 | arc 0 2 1 1 1 | 3 | refused model 17 5 Order
21 21 | arc 2 4 0 5 | 3 | refused model 21 6 Unknown
22 22 | # end | 3 | refused model 23 7 EndMissing
23 23 |  / end | 3 | refused model 24 8 AfterEnd
23 23 | path 0 1 0 2 5 / end | 3 | refused model 23 8 AfterEnd
15 15 | vertex 1 0 2 | 3 | refused model 15 9 Ends
14 14 | vertex 1 0 -2 | 3 | refused model 14 10 Window
21 21 | arc 2 3 -1 5 | 3 | refused model 21 11 MainNegative
18 18 | arc 1 1 0 2 | 3 | refused model 22 12 FreeCycle
9 9 | row 1 0 1 1 2 1 | 3 | refused model 9 13 Box
7 7 | var 0 1000000 -1099512 | 3 | refused model 22 14 CostRange
9 9 | row 1 1 1 1000000 / row * * 1 -48577 | 3 | refused model 10 15 TooMany
22 22 | \x01end | 3 | refused model 22 16 Byte
";

/// Whole inputs.
const INPUTS: &str = " | 3 | refused model 1 7 EndMissing
# vrpmodel 1 | 3 | refused model 1 7 EndMissing
vrpmodel 1/end | 0 | vrpmodel 1 / end
vrpmodel 1\r/sets 0\r/end\r | 0 | vrpmodel 1 / end
vrpmodel 1/end/end/ | 3 | refused model 3 8 AfterEnd
";

#[test]
fn refused(rt: HostRuntime) -> Result<(), Fail> {
    edits_answer(&rt, rt.alloc(), "print", texts::SETS, FAULTS)?;
    inputs_answer(&rt, rt.alloc(), "print", INPUTS)
}
