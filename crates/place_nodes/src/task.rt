//! An open place that is worked.

use route_model::{Model, Spot};

/// A place of a model with its value, the cost to beat, and the limit of labels.
#[derive(Clone, Copy)]
pub(crate) struct Task<'a> {
    pub model: &'a Model,
    pub spot: &'a Spot,
    pub value: i64,
    pub z: i64,
    pub limit: u32,
}
