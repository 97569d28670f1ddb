//! The parts of a place; this module stands outside the tests, since specs name its type.

use ng_sets::Near;
use rank1_cuts::Cut;
use route_model::{Model, Priced, Spot};

/// The parts of a place.
#[derive(Clone, Copy)]
pub struct Place<'a> {
    pub model: &'a Model,
    pub spot: &'a Spot,
    pub priced: &'a Priced,
    pub near: &'a Near,
    pub cuts: &'a [Cut],
    pub y: &'a [u64],
}
