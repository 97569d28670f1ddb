//! Linear programs, their multipliers and their weights.

use crate::rows::ROWS;
use crate::said::{after, columns_of, integers, pivots_of, sides_of};
use fixed_master::{Duals, solve_master};
use std::alloc::Global;
use std::process::Abort;
use std::test::Fail;

/// Numbers within 1 of those of a line, if it is there.
fn check_near<R: Abort>(
    rt: &R,
    alloc: Global,
    numbers: &[i64],
    said: &str,
    word: &str,
) -> Result<(), Fail> {
    let Some(line) = after(said, word) else {
        return Ok(());
    };
    let expected = integers(alloc, line)?;
    assert_eq!(rt; numbers.len(), expected.len(), "{word} of {said}");
    for (number, wanted) in numbers.iter().zip(expected.as_slice()) {
        assert!(rt; number.abs_diff(*wanted) <= 1, "{word} {number} of {said}");
    }
    Ok(())
}

/// Numbers that are not below those of a line, if it is there.
fn check_least<R: Abort>(rt: &R, alloc: Global, numbers: &[i64], said: &str) -> Result<(), Fail> {
    if let Some(line) = after(said, "least") {
        let expected = integers(alloc, line)?;
        assert_eq!(rt; numbers.len(), expected.len(), "least of {said}");
        for (number, least) in numbers.iter().zip(expected.as_slice()) {
            assert!(rt; least <= number, "{number} of {said}");
        }
    }
    Ok(())
}

/// Numbers that are not above those of a line, if it is there.
fn check_most<R: Abort>(rt: &R, alloc: Global, numbers: &[i64], said: &str) -> Result<(), Fail> {
    if let Some(line) = after(said, "most") {
        let expected = integers(alloc, line)?;
        assert_eq!(rt; numbers.len(), expected.len(), "most of {said}");
        for (number, most) in numbers.iter().zip(expected.as_slice()) {
            assert!(rt; number <= most, "{number} of {said}");
        }
    }
    Ok(())
}

/// The answer against what is said of it.
fn check_duals<R: Abort>(rt: &R, alloc: Global, duals: &Duals, said: &str) -> Result<(), Fail> {
    let mult = duals.mult.as_slice();
    check_near(rt, alloc, mult, said, "mult")?;
    check_near(rt, alloc, duals.weights.as_slice(), said, "weights")?;
    check_least(rt, alloc, mult, said)?;
    check_most(rt, alloc, mult, said)
}

/// Solves the program of a block, and compares.
fn compare<R: Abort>(rt: &R, alloc: Global, said: &str) -> Result<(), Fail> {
    let sides = sides_of(alloc, said)?;
    let columns = columns_of(alloc, said)?;
    let pivots = pivots_of(said)?;
    let duals = solve_master(alloc, sides.as_slice(), columns.as_slice(), pivots)?;
    check_duals(rt, alloc, &duals, said)
}

#[test]
fn linear_programs(rt: HostRuntime) -> Result<(), Fail> {
    for said in ROWS.split("\n\n") {
        compare(&rt, rt.alloc(), said)?;
    }
    Ok(())
}
