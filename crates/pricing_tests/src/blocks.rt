//! A block of a row: a model, a place of it with multipliers and cuts, and what is expected of its tables and walks.

use crate::found::check_lines;
use crate::parts::Place;
use crate::rows::ROWS;
use model_text::read_model;
use multipliers::priced;
use route_model::Model;
use std::alloc::Global;
use std::process::Abort;
use std::test::Fail;
use test_models::blocks::block_of;
use test_places::fitting::{cuts_fit, mult_fits, place_fits};
use test_places::said::{cuts_of, mult_of, near_of, place_of};

/// What a row says of a model.
fn check_model<R: Abort>(rt: &R, alloc: Global, model: &Model, said: &str) -> Result<(), Fail> {
    let spot = place_of(alloc, model, said)?;
    let mult = mult_of(alloc, model, said)?;
    let cuts = cuts_of(alloc, said)?;
    let cuts = cuts.as_slice();
    let near = near_of(alloc, model, said)?;
    if !place_fits(model, &spot) || !mult_fits(model, &mult) || !cuts_fit(cuts, &mult) {
        return Err(Fail::new("a place that does not fit"));
    }
    match priced(alloc, model, &spot.boxes, cuts, &mult) {
        Err(_) => Err(Fail::new("an open side")),
        Ok(priced) => check_lines(
            rt,
            alloc,
            Place {
                model,
                spot: &spot,
                priced: &priced,
                near: &near,
                cuts,
                y: mult.cuts.as_slice(),
            },
            said,
        ),
    }
}

/// The same of a block.
fn check_block<R: Abort>(rt: &R, alloc: Global, text: &str) -> Result<(), Fail> {
    let block = block_of(alloc, text)?;
    if block.model.len() >= 10_000 {
        return Err(Fail::new("a text is too long"));
    }
    let model = read_model(alloc, block.model.as_slice())?;
    check_model(rt, alloc, &model, block.said)
}

#[test]
fn tables_and_walks(rt: HostRuntime) -> Result<(), Fail> {
    for text in ROWS.split("\n\n") {
        check_block(&rt, rt.alloc(), text)?;
    }
    Ok(())
}
