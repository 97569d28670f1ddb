//! What a row is about. It stands outside the tests, so that specs can name it.

use label_rules::ProofTable;
use ng_sets::Near;
use rank1_cuts::Cut;
use route_model::{Model, Mult, Priced, Spot};

/// What a row is about.
#[derive(Clone, Copy)]
pub struct Row<'a> {
    pub model: &'a Model,
    pub spot: &'a Spot,
    pub mult: &'a Mult,
    pub weights: &'a [u64],
    pub priced: &'a Priced,
    pub near: &'a Near,
    pub cuts: &'a [Cut],
    pub tables: &'a [ProofTable],
}
