//! Whether multipliers, cuts and places fit a model.

ghost use Rattle.std.specs.Prelude.{◌≡◌, ◌↔◌, ◌≤◌, ◌<◌, ◌^◌, All, IsTrue, length};
ghost use Rattle.path_graph.specs.First.{EachBelow};
ghost use Rattle.path_graph.specs.Within.{IsWithin};
ghost use Rattle.rank1_cuts.specs.Fit.{CutFits};
ghost use Rattle.multipliers.specs.Ranges.{CutsFit, MultFits};
ghost use Rattle.route_model.specs.Places.{IsPartOf, MarksFit, SpotFits, path_span, span_at, var_span};
ghost use Rattle.route_model.specs.Parts.{graph_in, var_at};
ghost use Rattle.test_places.specs.Boxes.{HaveMarks, HavePaths, HaveVars};

use multipliers::MAX_CUTS;
use path_graph::{Graph, List};
use rank1_cuts::{Cut, cut_fits};
use route_model::{MAX_MULT, Model, Mult, Span, Spot, Var};

fn is_mult(m: i64) -> bool
    ensures { IsTrue result ↔ IsWithin MAX_MULT m }
{
    m.unsigned_abs() <= MAX_MULT
}

fn are_mults(mults: &[i64]) -> bool
    ensures { IsTrue result → All (IsWithin MAX_MULT) mults.now }
{
    mults.iter().all(|m| is_mult(*m))
}

/// Whether there is a multiplier in range for each variable, row, packing set and path count.
pub fn mult_fits(model: &Model, mult: &Mult) -> bool
    ensures { IsTrue result → MultFits model.now mult.now }
{
    if mult.vars.len() != model.vars.len() || mult.rows.len() != model.rows.len() {
        return false;
    }
    if mult.sets.len() != model.sets as usize || mult.paths.len() != model.graphs.len() {
        return false;
    }
    are_mults(mult.vars.as_slice())
        && are_mults(mult.rows.as_slice())
        && are_mults(mult.sets.as_slice())
        && are_mults(mult.paths.as_slice())
}

/// Whether the cuts fit, and have multipliers in range.
pub fn cuts_fit(cuts: &[Cut], mult: &Mult) -> bool
    ensures { IsTrue result → CutsFit cuts.now mult.now }
{
    if cuts.len() > MAX_CUTS || mult.cuts.len() != cuts.len() {
        return false;
    }
    cuts.iter().all(|cut| cut_fits(cut).is_ok()) && are_weights(mult.cuts.as_slice())
}

fn are_weights(weights: &[u64]) -> bool
    ensures { IsTrue result → All (λ y. y ≤ MAX_MULT) weights.now }
{
    weights.iter().all(|weight| *weight <= MAX_MULT)
}

/// Whether a place is one of the model: a box for each variable and path count, none empty or outside the model's, and a
/// mark for each arc.
pub fn place_fits(model: &Model, spot: &Spot) -> bool
    ensures { IsTrue result → SpotFits model.now spot.now }
{
    if !vars_fit(model.vars.as_slice(), spot.boxes.vars.as_slice()) {
        return false;
    }
    if !paths_fit(model.graphs.as_slice(), spot.boxes.paths.as_slice()) {
        return false;
    }
    marks_fit(model.graphs.as_slice(), spot.fixed.as_slice())
}

fn vars_fit(vars: &[Var], spans: &[Span]) -> bool
    ensures { IsTrue result → HaveVars vars.now spans.now }
{
    if spans.len() != vars.len() {
        return false;
    }
    for j in 0..vars.len() {
        if !var_fits(vars[j], spans[j]) {
            return false;
        }
    }
    true
}

fn var_fits(var: Var, span: Span) -> bool
    ensures { IsTrue result → IsPartOf (var_span var) span }
{
    var.low <= span.low && span.low <= span.high && span.high <= var.high
}

fn paths_fit(graphs: &[Graph], spans: &[Span]) -> bool
    ensures { IsTrue result → HavePaths graphs.now spans.now }
{
    if spans.len() != graphs.len() {
        return false;
    }
    for g in 0..graphs.len() {
        if !path_fits(&graphs[g], spans[g]) {
            return false;
        }
    }
    true
}

fn path_fits(graph: &Graph, span: Span) -> bool
    ensures { IsTrue result → IsPartOf (path_span graph.now) span }
{
    let ends = graph.ends();
    i64::from(ends.low) <= span.low && span.low <= span.high && span.high <= i64::from(ends.high)
}

fn marks_fit(graphs: &[Graph], fixed: &[List<bool>]) -> bool
    ensures { IsTrue result → HaveMarks graphs.now fixed.now }
{
    if fixed.len() != graphs.len() {
        return false;
    }
    for g in 0..graphs.len() {
        if fixed[g].len() != graphs[g].arc_count() as usize {
            return false;
        }
    }
    true
}
