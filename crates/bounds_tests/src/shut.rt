//! Which arcs are shut at a place.

ghost use Rattle.std.specs.Prelude.{◌<◌, length};
ghost use Rattle.route_model.specs.Places.{IsSpotOf};

use crate::fitting::spot_fits;
use crate::said::{after, integers, short_model};
use multipliers::root_spot;
use path_graph::List;
use route_model::{Model, Spot, is_shut};
use std::alloc::Global;
use std::process::Abort;
use std::test::Fail;
use test_models::blocks::block_of;

/// Drops an arc, if there is a mark for it.
fn drop_arc(fixed: &mut List<List<bool>>, g: usize, a: usize) {
    if g >= fixed.len() {
        return;
    }
    let marks = fixed.at_mut(g);
    if a < marks.len() {
        marks.set(a, true);
    }
}

/// The root place, but for the arc of graph 0 that is said to be dropped.
fn place_of(alloc: Global, model: &Model, said: &str) -> Result<Spot, Fail> {
    let mut spot = root_spot(alloc, model)?;
    if let Some(line) = after(said, "dropped") {
        let arc = usize::try_from(line.trim().parse::<u32>()?)?;
        drop_arc(&mut spot.fixed, 0, arc);
    }
    Ok(spot.copy(alloc)?)
}

/// The arcs of graph 0 that are shut.
fn shut_arcs(alloc: Global, model: &Model, spot: &Spot) -> Result<Vec<i64>, Fail>
    requires spot { IsSpotOf model.now spot.now }
    requires some { 0 < length model.now.graphs }
{
    let mut shut = Vec::new(alloc);
    for a in 0..model.graphs.at(0).arc_count() {
        if is_shut(model, spot, 0, a) {
            shut.push(i64::from(a))?;
        }
    }
    Ok(shut)
}

/// Compares the shut arcs of a block with those that are said.
fn compare<R: Abort>(rt: &R, alloc: Global, text: &str) -> Result<(), Fail> {
    let block = block_of(alloc, text)?;
    let model = short_model(alloc, block.model.as_slice())?;
    let spot = place_of(alloc, &model, block.said)?;
    if !spot_fits(&model, &spot) || model.graphs.is_empty() {
        return Err(Fail::new("a place that is none of the model"));
    }
    let said = after(block.said, "shut").ok_or("a block without shut arcs")?;
    let shut = shut_arcs(alloc, &model, &spot)?;
    assert_eq!(rt;
        shut.as_slice(),
        integers(alloc, said)?.as_slice(),
        "{text}"
    );
    Ok(())
}

/// Places, each with its shut arcs.
const PLACES: &str = "# The root: nothing is shut.
vrpmodel 1
var 0 2 3
var 0 2 4
var 0 2 2
graph 3 0 2 0 2 1 0
vertex - 0 2
vertex - 0 2
vertex - 0 2
arc 0 1 1 0
arc 1 2 1 1 2
arc 0 2 1 2
end
shut

# The second arc is dropped.
vrpmodel 1
var 0 2 3
var 0 2 4
var 0 2 2
graph 3 0 2 0 2 1 0
vertex - 0 2
vertex - 0 2
vertex - 0 2
arc 0 1 1 0
arc 1 2 1 1 2
arc 0 2 1 2
end
dropped 1
shut 1

# Variable 2 ends at 0: the second arc maps it behind another, the third alone.
vrpmodel 1
var 0 2 3
var 0 2 4
var 0 0 2
graph 3 0 2 0 2 1 0
vertex - 0 2
vertex - 0 2
vertex - 0 2
arc 0 1 1 0
arc 1 2 1 1 2
arc 0 2 1 2
end
shut 1 2

# The path count ends at 0.
vrpmodel 1
var 0 2 3
var 0 2 4
var 0 2 2
graph 3 0 2 0 0 1 0
vertex - 0 2
vertex - 0 2
vertex - 0 2
arc 0 1 1 0
arc 1 2 1 1 2
arc 0 2 1 2
end
shut 0 1 2";

#[test]
fn shut_arcs_of_places(rt: HostRuntime) -> Result<(), Fail> {
    for text in PLACES.split("\n\n") {
        compare(&rt, rt.alloc(), text)?;
    }
    Ok(())
}
