//! Texts at a limit of the format and one beyond, made of pieces. In a row stand the pieces, how often each, and what is
//! expected: a fault, or that the text is read and printed as it is.

use crate::outcomes::{model_of, prints, refuses};
use std::test::Fail;
use test_models::edits::joined;
use test_models::texts::SETS;

const ROWS: &str =
    "optimal 0/proof 1/close/ | 64 times cut 2 1 1 0 1/ | table 0 full 0/fore 0 0 0 s | 64 times  255 | /end/ => same
optimal 0/proof 1/close/ | 64 times cut 2 1 1 0 1/ | cut x/end/ => 68 TooMany
optimal 0/proof 1/close/ | 64 times cut 2 1 1 0 1/ | table 0 full 0/fore 0 0 0 s | 65 times  0 | /end/ => 69 Word
optimal 0/proof 1/close/ | 64 times cut 2 1 1 0 1/ | table 0 full 0/fore 0 0 0 s | 63 times  0 | /end/ => 69 Word
optimal 0/proof 1/ | 1000 times point/ | end/ => same
optimal 0/proof 1/close/cut 2 1 300 | 300 times  0 1 | /end/ => same
optimal 0/proof 1/close/cut 2 1 300 | 299 times  0 1 | /end/ => 4 Word
optimal 0/proof 1/fix/drop 0 | 1000 times  7 | /end/ => same
4096 times path 0 1 0/ | end/ => 1 Order
optimal 0/ | 4096 times path 0 1 0/ | proof 1/end/ => same
optimal 0/ | 4096 times path 0 1 0/ | path 0 1 x/proof 1/end/ => 4098 TooMany
";

#[test]
fn limits(rt: HostRuntime) -> Result<(), Fail> {
    let model = model_of(rt.alloc(), SETS.as_bytes())?;
    for row in ROWS.lines() {
        let (pieces, expected) = row.split_once(" => ").ok_or("a row that expects nothing")?;
        let text = joined(rt.alloc(), pieces)?;
        if expected == "same" {
            prints(
                &rt,
                rt.alloc(),
                &model,
                text.as_slice(),
                text.as_slice(),
                row,
            )?;
        } else {
            refuses(&rt, rt.alloc(), &model, text.as_slice(), expected, row)?;
        }
    }
    Ok(())
}
