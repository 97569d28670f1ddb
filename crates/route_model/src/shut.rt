ghost use Rattle.std.specs.Prelude.{◌≡◌, ◌<◌, List, All, length};
ghost use Rattle.std.specs.List.{list_any};
ghost use Rattle.route_model.specs.declared.plan.Plan.{Plan};
ghost use Rattle.route_model.specs.Parts.{graph_in};
ghost use Rattle.route_model.specs.PlaceParts.{DropLaw, KeepsLaw, PartsLaw, SplitLaw};
ghost use Rattle.route_model.specs.Places.{IsSpotOf, SolvesAt, UsesNone, ends_at_zero, is_dropped, shut_at, span_at};

use crate::parts::Model;
use crate::places::{Span, Spot};

/// Whether an arc is shut at a place: it is dropped, or maps a variable whose box ends at 0, or lies in a graph whose
/// path count ends at 0. No solution of the place uses a shut arc.
///
/// The time is linear in the variables that the arc maps.
pub fn is_shut(model: &Model, spot: &Spot, g: u32, a: u32) -> bool
    requires spot { IsSpotOf model.now spot.now }
    requires graph { g < length model.now.graphs }
    requires arc { a < length (graph_in model.now.graphs g).arcs }
    ensures shut { result ≡ shut_at model.now spot.now g a }
    ensures unused { (plan : Plan) → SolvesAt model.now spot.now plan → UsesNone (shut_at model.now spot.now) plan }
{
    let vars = model.maps.at(g as usize).at(a as usize).as_slice();
    is_marked(spot, g, a)
        || maps_zero(spot.boxes.vars.as_slice(), vars)
        || has_none(*spot.boxes.paths.at(g as usize))
}

/// Whether the arc is dropped.
fn is_marked(spot: &Spot, g: u32, a: u32) -> bool
    ensures { result ≡ is_dropped spot.now g a }
{
    if g as usize >= spot.fixed.len() {
        return false;
    }
    let marks = spot.fixed.at(g as usize);
    if a as usize >= marks.len() {
        return false;
    }
    *marks.at(a as usize)
}

/// Whether one of the variables is in a box that ends at 0.
fn maps_zero(spans: &[Span], vars: &[u32]) -> bool
    requires { All (λ j. j < length spans.now) vars.now }
    ensures { result ≡ list_any (λ j. ends_at_zero (span_at spans.now j)) vars.now }
{
    for var in vars {
        if has_none(spans[*var as usize]) {
            return true;
        }
    }
    false
}

/// Whether a box has no number above 0.
fn has_none(span: Span) -> bool
    ensures { result ≡ ends_at_zero span }
{
    span.high <= 0
}

/// A solution of a place solves one of the two places that a split makes, and both are places of the model.
pub fn splits_keep_solutions()
    ensures solutions { SplitLaw }
    ensures places { PartsLaw }
{}

/// Arcs that are dropped besides are exactly those of a list, and a solution that uses none of them stays one.
pub fn drops_keep_solutions()
    ensures drops { DropLaw }
    ensures solutions { KeepsLaw }
{}
