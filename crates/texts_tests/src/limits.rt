//! Long texts at the limits of the format, and one beyond, and bytes beyond ASCII. In a row stand pieces of the text,
//! each once or as often as it says, in which `/` stands for LF, and what is expected.

use crate::outcomes::{prints, refuses};
use std::alloc::Global;
use std::process::Abort;
use std::test::Fail;
use test_models::edits::joined;

/// Texts with more variables than there may be, or as many and another fault behind them.
const VARIABLES: &str = "vrpmodel 1/ | 30001 times var 0 1 0/ | end/ | 30002 TooMany
vrpmodel 1/ | 30000 times var 0 1 0/ | var/end/ | 30002 TooMany
vrpmodel 1/ | 30000 times var 0 1 0/ | var 2 1 x/end/ | 30002 TooMany
vrpmodel 1/ | 30000 times var 0 1 0/ | v/end/ | 30002 Word
vrpmodel 1/ | 30000 times var 0 1 0/ | row * */var 0 1 0/end/ | 30003 Order
vrpmodel 1/ | 30000 times var 0 1 0/ | row * * 30000 1/end/ | 30002 Unknown
";

/// The same of rows.
const ROWS: &str = "vrpmodel 1/ | 5000 times row * */ | row x/end/ | 5002 TooMany
vrpmodel 1/ | 5000 times row * */ | sets 0/row x/end/ | 5003 Order
";

/// Other texts with a fault.
const BEYOND: &str =
    "vrpmodel 1/ | 65 times graph 2 0 1 0 0 1 0/vertex - 0 0/vertex - 0 0/ | end/ | 194 TooMany
vrpmodel 1/ | 64 times graph 2 0 1 0 0 1 0/vertex - 0 0/vertex - 0 0/ | graph/end/ | 194 TooMany
vrpmodel 1/ | 64 times graph 2 0 1 0 0 1 0/vertex - 0 0/vertex - 0 0/ | graph 1 x/end/ | 194 TooMany
vrpmodel 1/ | 63 times graph 2 0 1 0 0 1 0/vertex - 0 0/vertex - 0 0/ | graph 2 0 1 0 0 1 0/vertex - 0 0/graph/ | 193 Order
vrpmodel 1/ | 63 times graph 2 0 1 0 65 1 0/vertex - 0 0/vertex - 0 0/ | graph 2 0 1 0 2 1 0/end/ | 191 TooMany
vrpmodel 1/ | 17 times var 0 1 0/ | graph 2 0 1 0 0 1 0/vertex - 0 0/vertex - 0 0/arc 0 1 0 0 1 2 3 4 5 6 7 8 9 10 11 12 13 14 15 16/end/ | 22 TooMany
vrpmodel 1/ | 17 times var 0 1 0/ | graph 2 0 1 0 0 1 0/vertex - 0 0/vertex - 0 0/arc 0 1 0 0 1 2 3 4 5 6 7 8 9 10 11 12 13 14 15 15/end/ | 22 Order
vrpmodel 1/ | 17 times var 0 1 0/ | graph 2 0 1 0 0 1 0/vertex - 0 0/vertex - 0 0/arc 0 1 0 0 1 2 3 4 5 6 7 8 9 10 11 12 13 14 15 17/end/ | 22 Unknown
vrpmodel 1/ | 17 times var 0 1 0/ | graph 2 0 1 0 0 1 0/vertex - 0 0/vertex - 0 0/arc 0 1 0 0 1 2 3 4 5 6 7 8 9 10 11 12 13 14 15 x/end/ | 22 Number
vrpmodel 1/ | 17 times var 0 1 0/ | graph 2 0 1 0 0 1 0/vertex - 0 0/vertex - 0 0/arc 0 1 -1 0 1 2 3 4 5 6 7 8 9 10 11 12 13 14 15 16/end/ | 22 MainNegative
vrpmodel 1/ | graph 1024 0 1 0 0 1 0/ | 1023 times vertex - 0 0/ | end/ | 1026 Order
vrpmodel 1/ | graph 1024 0 1 0 0 1 0/ | 1025 times vertex - 0 0/ | end/ | 1027 Order
vrpmodel 1/ | graph 1024 1024 1 0 0 1 0/ | 2 Unknown
vrpmodel 1/var 0 1 0/row * * 0 1000000/ | 4 times row * * 0 -10000/ | row * * 0 8577/end/ | 8 TooMany
vrpmodel 1/var 0 0  | 400 times 9 | /end/ | 2 Range
vrpmodel 1/var 0 0 - | 400 times 9 | /end/ | 2 Range
vrpmodel 1/var 0 0  | 400 times 9 | x/end/ | 2 Number
vrpmodel 1/var 0 0  | 400 times - | /end/ | 2 Number
vrpmodel 1/row * *  | 400 times 9 |  1/end/ | 2 Unknown
vrpmodel 1/ | 400 times v | ar 0 0 0/end/ | 2 Word
vrpmodel 1/ | 70000 times / | x/end/ | 70002 Word
vrpmodel 1/ | 70000 times # a comment/ | 70002 EndMissing
vrpmodel 1/end/ | 70000 times / | end/ | 70003 AfterEnd
";

/// Texts that are read, each with what is printed: `same` is the same.
const WITHIN: &str = "vrpmodel 1/ | 30000 times var 0 1 0/ | end/ | same
vrpmodel 1/ | 30000 times var 0 1 0/ | row * * 29999 1/end/ | same
vrpmodel 1/ | 5000 times row * */ | end/ | same
vrpmodel 1/ | 64 times graph 2 0 1 0 0 1 0/vertex - 0 0/vertex - 0 0/ | end/ | same
vrpmodel 1/ | 64 times graph 2 0 1 0 64 1 0/vertex - 0 0/vertex - 0 0/ | end/ | same
vrpmodel 1/ | 63 times graph 2 0 1 0 65 1 0/vertex - 0 0/vertex - 0 0/ | graph 2 0 1 0 1 1 0/vertex - 0 0/vertex - 0 0/end/ | same
vrpmodel 1/ | 17 times var 0 1 0/ | graph 2 0 1 0 0 1 0/vertex - 0 0/vertex - 0 0/arc 0 1 0 1 2 3 4 5 6 7 8 9 10 11 12 13 14 15 16/end/ | same
vrpmodel 1/ | graph 1024 1023 1022 0 0 1 0/ | 1024 times vertex - 0 0/ | end/ | same
vrpmodel 1/var 0 1 0/row * * 0 1000000/ | 4 times row * * 0 -10000/ | row * * 0 8576/end/ | same
vrpmodel 1/var 0 0 - | 400 times 0 | 7/end/ | vrpmodel 1/var 0 0 -7/end/
vrpmodel 1/var 0 0 0/row * *  | 400 times 0 |  1/end/ | vrpmodel 1/var 0 0 0/row * * 0 1/end/
vrpmodel 1/ | 70000 times # a comment/ | end/ | vrpmodel 1/end/
vrpmodel  | 70000 times \t\r | 1/end/ | vrpmodel 1/end/
";

/// Asserts the faults of the rows.
fn refuses_all<R: Abort>(rt: &R, alloc: Global, rows: &str) -> Result<(), Fail> {
    for row in rows.lines() {
        let (pieces, expected) = row.rsplit_once(" | ").ok_or("a row without a fault")?;
        let text = joined(alloc, pieces)?;
        refuses(rt, alloc, text.as_slice(), expected, row)?;
    }
    Ok(())
}

#[test]
fn too_many_variables(rt: HostRuntime) -> Result<(), Fail> {
    refuses_all(&rt, rt.alloc(), VARIABLES)
}

#[test]
fn too_many_rows(rt: HostRuntime) -> Result<(), Fail> {
    refuses_all(&rt, rt.alloc(), ROWS)
}

#[test]
fn beyond_the_limits(rt: HostRuntime) -> Result<(), Fail> {
    refuses_all(&rt, rt.alloc(), BEYOND)
}

#[test]
fn within_the_limits(rt: HostRuntime) -> Result<(), Fail> {
    for row in WITHIN.lines() {
        let (pieces, expected) = row.rsplit_once(" | ").ok_or("a row without a print")?;
        let text = joined(rt.alloc(), pieces)?;
        let printed = match expected {
            "same" => joined(rt.alloc(), pieces)?,
            pieces => joined(rt.alloc(), pieces)?,
        };
        prints(&rt, rt.alloc(), text.as_slice(), printed.as_slice(), row)?;
    }
    Ok(())
}

#[test]
fn bytes_beyond_ascii(rt: HostRuntime) -> Result<(), Fail> {
    for (text, expected) in [
        (b"vrpmodel 1\n# \xff\x80\x00\nend\n".as_slice(), ""),
        (b"#\xff\nvrpmodel 1#\xff\nend\n#\xff".as_slice(), ""),
        (b"vrpmodel 1\n\xff # a\nend\n".as_slice(), "2 Byte"),
        (b"vrpmodel 1\nend\n\xff\n".as_slice(), "3 Byte"),
        (b"\xffvrpmodel 2\n".as_slice(), "1 Byte"),
        (b"\n\nvrpmodel \x801\n".as_slice(), "3 Byte"),
    ] {
        if expected.is_empty() {
            let printed = b"vrpmodel 1\nend\n".as_slice();
            prints(&rt, rt.alloc(), text, printed, "bytes in comments")?;
        } else {
            refuses(&rt, rt.alloc(), text, expected, expected)?;
        }
    }
    Ok(())
}
