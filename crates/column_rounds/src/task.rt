//! A place at which columns are found.

use route_model::{Model, Spot};

/// A place of a model, and the limit of labels of a table.
#[derive(Clone, Copy)]
pub(crate) struct Task<'a> {
    pub model: &'a Model,
    pub spot: &'a Spot,
    pub limit: u32,
}
