ghost use Rattle.std.specs.Prelude.{◌≡◌, ◌<◌, ◌+◌, ◌^◌, IfSome, length};
ghost use Rattle.path_graph.specs.declared.limits.TheConstants.{MAX_SETS};
ghost use Rattle.path_graph.specs.Within.{IsWithin};
ghost use Rattle.ng_sets.specs.Near.{sets_at};
ghost use Rattle.label_rules.specs.Labels.{visit_cost as visit_cost_of};
ghost use Rattle.route_labels.specs.Fit.{FieldFits, PartsAgree};
ghost use Rattle.route_labels.specs.Meaning.{setting_of};

use ng_sets::Near;
use path_graph::{Graph, SetBits};
use rank1_cuts::Cut;
use route_model::{Model, Priced, Spot};

/// What the labels of a graph are made from: the model and which of its graphs, a place, prices, near lists, and cuts with
/// their weights.
///
/// The prices are what multipliers make of the boxes of the place, and the weights of the cuts are theirs. Costs and
/// weights are at the scale of 65,536 to a unit of cost.
#[derive(Clone, Copy)]
pub struct Field<'a> {
    pub model: &'a Model,
    pub graph: u32,
    pub spot: &'a Spot,
    pub priced: &'a Priced,
    pub near: &'a Near,
    pub cuts: &'a [Cut],
    pub y: &'a [u64],
}

impl<'a> Field<'a> {
    /// The graph whose walks are labelled.
    pub fn path_graph(&self) -> &'a Graph
        requires { FieldFits self.now }
        ensures graph { result.now ≡ (setting_of self.now).graph }
        ensures agree { PartsAgree self.now }
    {
        let model = self.model;
        model.graphs.at(self.graph as usize)
    }

    /// Whether an arc is shut.
    pub fn is_shut(&self, arc: u32) -> bool
        requires agree { PartsAgree self.now }
        requires arc { arc < length (setting_of self.now).graph.arcs }
        ensures { result ≡ (setting_of self.now).is_shut arc }
    {
        route_model::is_shut(self.model, self.spot, self.graph, arc)
    }

    /// The reduced cost of an arc.
    pub fn arc_cost(&self, arc: u32) -> i128
        requires agree { PartsAgree self.now }
        requires arc { arc < length (setting_of self.now).graph.arcs }
        ensures cost { result ≡ (setting_of self.now).arc_cost arc }
        ensures range { IsWithin (2 ^ 72 + 2 ^ 54) result }
    {
        *self.priced.arcs.at(self.graph as usize).at(arc as usize)
    }
}

/// The graph of a field.
pub(crate) fn graph_of<'a>(field: &Field<'a>) -> &'a Graph
    requires { PartsAgree field.now }
    ensures { result.now ≡ (setting_of field.now).graph }
{
    let model = field.model;
    model.graphs.at(field.graph as usize)
}

/// The cost of a path before its first arc.
pub(crate) fn start_of(field: &Field) -> i128
    requires { PartsAgree field.now }
    ensures { result ≡ (setting_of field.now).start }
{
    *field.priced.starts.at(field.graph as usize)
}

/// The sets near a vertex.
pub(crate) fn near_of(field: &Field, vertex: u32) -> SetBits
    requires agree { PartsAgree field.now }
    requires vertex { vertex < length (setting_of field.now).graph.vertices }
    ensures { result ≡ sets_at (setting_of field.now).near vertex }
{
    field.near.at(field.graph, vertex)
}

/// The cost of a visit.
pub(crate) fn visit_cost(field: &Field, set: Option<u16>) -> i128
    requires agree { PartsAgree field.now }
    requires there { IfSome set (λ s. s < length field.now.priced.now.visits) }
    requires set { IfSome set (λ s. s < MAX_SETS) }
    ensures cost { result ≡ visit_cost_of (setting_of field.now) set }
    ensures range { IsWithin (2 ^ 54) result }
{
    match set {
        None => 0,
        Some(s) => *field.priced.visits.at(s as usize),
    }
}
