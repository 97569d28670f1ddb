//! The bound of a place, what it closes, and limits of walks.

ghost use Rattle.multipliers.specs.Ranges.{AreInRange};
ghost use Rattle.safe_bound.specs.Promise.{LeastsFit};

use crate::fitting::leasts_fit;
use crate::said::after;
use route_model::{Boxes, Priced};
use safe_bound::{Bound, bound_value, closes, walk_limit};
use std::alloc::Global;
use std::process::Abort;
use std::test::Fail;

/// A number, or none.
fn number_or_none(word: &str) -> Result<Option<i128>, Fail> {
    if word == "none" {
        return Ok(None);
    }
    Ok(Some(i128::from(word.parse::<i64>()?)))
}

/// The leasts of a line.
fn leasts_of(alloc: Global, line: &str) -> Result<Vec<Option<i128>>, Fail> {
    let mut leasts = Vec::new(alloc);
    for word in line.split_whitespace() {
        leasts.push(number_or_none(word)?)?;
    }
    Ok(leasts)
}

/// The bound that is said: its value, or the graph that shows that there is none.
fn bound_of(said: &str) -> Result<Bound, Fail> {
    if let Some(line) = after(said, "none") {
        return Ok(Bound::NoPaths(line.trim().parse::<u32>()?));
    }
    let line = after(said, "bound").ok_or("leasts without a bound")?;
    Ok(Bound::Value(i128::from(line.trim().parse::<i64>()?)))
}

/// What a bound closes: the cost that is said, and none that is greater.
fn check_closes<R: Abort>(rt: &R, bound: &Bound, said: &str) -> Result<(), Fail> {
    let Some(line) = after(said, "closes") else {
        return Ok(());
    };
    let z = line.trim().parse::<i32>()?;
    assert!(rt; closes(bound, i64::from(z)), "{said}");
    assert!(rt; !closes(bound, i64::from(z) + 1), "{said}");
    Ok(())
}

/// A limit against the one of a line: the graph, the cost, and the limit or none.
fn check_limit<R: Abort>(
    rt: &R,
    priced: &Priced,
    boxes: &Boxes,
    leasts: &[Option<i128>],
    line: &str,
) -> Result<(), Fail>
    requires priced { AreInRange boxes.now priced.now }
    requires leasts { LeastsFit boxes.now.paths leasts.now }
{
    let (g, rest) = line.split_once(" ").ok_or("a limit without a cost")?;
    let (z, expected) = rest.split_once(" ").ok_or("a limit that expects nothing")?;
    let g = g.parse::<u32>()?;
    if g as usize >= boxes.paths.len() {
        return Err(Fail::new("a limit of an unknown graph"));
    }
    let limit = walk_limit(priced, boxes, leasts, g, z.parse::<i64>()?);
    assert_eq!(rt; limit, number_or_none(expected)?, "{line}");
    Ok(())
}

/// Compares the bound and the limits of the leasts that are said, if some are.
pub fn check_bounds<R: Abort>(
    rt: &R,
    alloc: Global,
    priced: &Priced,
    boxes: &Boxes,
    said: &str,
) -> Result<(), Fail>
    requires { AreInRange boxes.now priced.now }
{
    let Some(line) = after(said, "least") else {
        return Ok(());
    };
    let leasts = leasts_of(alloc, line)?;
    let leasts = leasts.as_slice();
    if !leasts_fit(boxes.paths.as_slice(), leasts) {
        return Err(Fail::new("leasts that don't fit"));
    }
    let bound = bound_value(priced, boxes, leasts);
    assert_eq!(rt; bound, bound_of(said)?, "{said}");
    check_closes(rt, &bound, said)?;
    for line in said.lines() {
        if let Some(rest) = line.strip_prefix("limit ") {
            check_limit(rt, priced, boxes, leasts, rest)?;
        }
    }
    Ok(())
}
