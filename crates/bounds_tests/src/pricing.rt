//! Priced multipliers, and the bounds and limits that they prove.

ghost use Rattle.multipliers.specs.Ranges.{CutsFit, MultFits};
ghost use Rattle.route_model.specs.Places.{BoxesFit};

use crate::bounds::check_bounds;
use crate::fitting::{cuts_fit, mult_fits};
use crate::rows::ROWS;
use crate::said::{after, cuts_of, integers, mult_of, short_model};
use multipliers::{priced, root_spot};
use path_graph::List;
use rank1_cuts::Cut;
use route_model::{Boxes, Model, Mult, MultFault, Priced, Quantity};
use std::alloc::Global;
use std::process::Abort;
use std::test::Fail;
use test_models::blocks::block_of;

/// Numbers against those of a line, if it is there.
fn check<R: Abort>(
    rt: &R,
    alloc: Global,
    numbers: &[i128],
    said: &str,
    word: &str,
) -> Result<(), Fail> {
    let Some(line) = after(said, word) else {
        return Ok(());
    };
    let mut expected = Vec::new(alloc);
    for number in integers(alloc, line)?.as_slice() {
        expected.push(i128::from(*number))?;
    }
    assert_eq!(rt; numbers, expected.as_slice(), "{word} of {said}");
    Ok(())
}

/// The numbers of lists, one after the other.
fn flat(alloc: Global, lists: &List<List<i128>>) -> Result<Vec<i128>, Fail> {
    let mut numbers = Vec::new(alloc);
    for list in lists.as_slice() {
        numbers.extend_from_slice(list.as_slice())?;
    }
    Ok(numbers)
}

fn check_priced<R: Abort>(rt: &R, alloc: Global, p: &Priced, said: &str) -> Result<(), Fail> {
    assert!(rt; after(said, "open").is_none(), "{said}");
    check(rt, alloc, [p.base].as_slice(), said, "base")?;
    check(rt, alloc, flat(alloc, &p.arcs)?.as_slice(), said, "arcs")?;
    check(rt, alloc, p.visits.as_slice(), said, "visits")?;
    check(rt, alloc, p.starts.as_slice(), said, "starts")
}

/// The row that needs an open side, against the one that is said.
fn check_fault<R: Abort>(rt: &R, alloc: Global, fault: MultFault, said: &str) -> Result<(), Fail> {
    let MultFault::OpenSide(Quantity::Row(row)) = fault else {
        return Err(Fail::new("a fault that is not an open row"));
    };
    check(rt, alloc, [i128::from(row)].as_slice(), said, "open")
}

/// Prices multipliers, and compares.
fn check_all<R: Abort>(
    rt: &R,
    alloc: Global,
    model: &Model,
    boxes: &Boxes,
    cuts: &[Cut],
    mult: &Mult,
    said: &str,
) -> Result<(), Fail>
    requires boxes { BoxesFit model.now boxes.now }
    requires cuts { CutsFit cuts.now mult.now }
    requires mult { MultFits model.now mult.now }
{
    match priced(alloc, model, boxes, cuts, mult) {
        Err(fault) => check_fault(rt, alloc, fault, said),
        Ok(p) => {
            check_priced(rt, alloc, &p, said)?;
            check_bounds(rt, alloc, &p, boxes, said)
        }
    }
}

/// Prices the multipliers that are said of a model at its root, and compares.
fn check_model<R: Abort>(rt: &R, alloc: Global, model: &Model, said: &str) -> Result<(), Fail> {
    let spot = root_spot(alloc, model)?;
    let mult = mult_of(alloc, model, said)?.copy(alloc)?;
    let cuts = cuts_of(alloc, said)?;
    let cuts = cuts.as_slice();
    if !mult_fits(model, &mult) || !cuts_fit(cuts, &mult) {
        return Err(Fail::new("multipliers that don't fit"));
    }
    check_all(rt, alloc, model, &spot.boxes, cuts, &mult, said)
}

/// Prices the multipliers of a block, and compares.
fn compare<R: Abort>(rt: &R, alloc: Global, text: &str) -> Result<(), Fail> {
    let block = block_of(alloc, text)?;
    let model = short_model(alloc, block.model.as_slice())?;
    check_model(rt, alloc, &model, block.said)
}

#[test]
fn priced_multipliers(rt: HostRuntime) -> Result<(), Fail> {
    for text in ROWS.split("\n\n") {
        compare(&rt, rt.alloc(), text)?;
    }
    Ok(())
}
