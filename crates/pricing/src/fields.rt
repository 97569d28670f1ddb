ghost use Rattle.std.specs.Prelude.{◌≡◌, ◌<◌, length};
ghost use Rattle.route_model.specs.Fit.{ModelFits};
ghost use Rattle.route_labels.specs.Fit.{FieldFits};
ghost use Rattle.route_labels.specs.Meaning.{setting_of};
ghost use Rattle.pricing.specs.Fields.{PlaceFits, field_at, setting_in};

use ng_sets::Near;
use rank1_cuts::Cut;
use route_labels::Field;
use route_model::{Model, Priced, Spot};

/// The parts of a place, without a graph.
#[derive(Clone, Copy)]
pub(crate) struct Place<'a> {
    pub model: &'a Model,
    pub spot: &'a Spot,
    pub priced: &'a Priced,
    pub near: &'a Near,
    pub cuts: &'a [Cut],
    pub y: &'a [u64],
}

impl<'a> Place<'a> {
    /// How many graphs there are.
    pub(crate) fn graph_count(&self) -> u32
        ensures count { result ≡ length self.now.model.now.graphs }
        ensures model { ModelFits self.now.model.now }
    {
        let model = self.model;
        model.graphs.len() as u32
    }

    /// What the labels of a graph are made from.
    pub(crate) fn field(&self, graph: u32) -> Field<'a>
        requires fits { PlaceFits self.now.model.now self.now.spot.now self.now.priced.now self.now.near.now self.now.cuts.now self.now.y.now }
        requires graph { graph < length self.now.model.now.graphs }
        ensures fits { FieldFits result }
        ensures setting { setting_of result ≡ setting_in self.now.model.now self.now.spot.now self.now.priced.now self.now.near.now self.now.cuts.now self.now.y.now graph }
        ensures graph { result.graph ≡ graph }
        ensures is { result ≡ field_at self.now graph }
    {
        Field {
            model: self.model,
            graph,
            spot: self.spot,
            priced: self.priced,
            near: self.near,
            cuts: self.cuts,
            y: self.y,
        }
    }
}
