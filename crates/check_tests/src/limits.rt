//! A long chain of splits.

use crate::outcomes::{answers, edited_model};
use std::alloc::Global;
use std::test::Fail;
use test_models::texts::SETS;

/// One variable with a wide box.
const WIDE_BOX: &str = "2 2 | var 0 1000000 3 | wide box";

/// Puts a number below 10,000 by four digits.
fn put_number(text: &mut Vec<u8>, number: u32) -> Result<(), Fail> {
    for unit in [1000, 100, 10, 1] {
        text.push(b'0' + (number / unit % 10) as u8)?;
    }
    Ok(())
}

/// A certificate that splits the box at each number from 5000 down to 1, each time within the lower part.
fn chain(alloc: Global) -> Result<Vec<u8>, Fail> {
    let mut text = Vec::new(alloc);
    text.extend_from_slice(b"optimal 9\npath 0 1 0 2 5\nproof 1\n")?;
    for above in 0..5000 {
        text.extend_from_slice(b"split var 0 ")?;
        put_number(&mut text, 5000 - above)?;
        text.push(b'\n')?;
    }
    text.extend_from_slice(b"end\n")?;
    Ok(text)
}

#[test]
fn long_chain(rt: HostRuntime) -> Result<(), Fail> {
    let alloc = rt.alloc();
    let model = edited_model(alloc, SETS, WIDE_BOX)?;
    let text = chain(alloc)?;
    answers(
        &rt,
        alloc,
        model.as_slice(),
        text.as_slice(),
        "5004 32 Tail",
        "a chain of splits",
    )
}
