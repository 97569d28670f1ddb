//! Whether what a row says is what the calls ask for.

ghost use Rattle.std.specs.Prelude.{◌≡◌, ◌↔◌, ◌≤◌, ◌<◌, ◌^◌, All, IsTrue, length};
ghost use Rattle.path_graph.specs.Within.{IsWithin};
ghost use Rattle.rank1_cuts.specs.Fit.{CutFits};
ghost use Rattle.multipliers.specs.Ranges.{CutsFit, MultFits};
ghost use Rattle.route_model.specs.Places.{IsSpotOf};
ghost use Rattle.bounds_tests.specs.Marks.{HaveMarks};
ghost use Rattle.safe_bound.specs.Promise.{IsLeastNear, LeastsFit};

use multipliers::MAX_CUTS;
use path_graph::{Graph, List};
use rank1_cuts::{Cut, cut_fits};
use route_model::{MAX_MULT, Model, Mult, Span, Spot};

fn is_mult(m: i64) -> bool
    ensures { IsTrue result ↔ IsWithin MAX_MULT m }
{
    m.unsigned_abs() <= MAX_MULT
}

fn are_mults(mults: &[i64]) -> bool
    ensures { IsTrue result → All (IsWithin MAX_MULT) mults.now }
{
    mults.iter().all(|m| is_mult(*m))
}

/// Whether there is a multiplier in range for each variable, row, packing set and path count.
pub fn mult_fits(model: &Model, mult: &Mult) -> bool
    ensures { IsTrue result → MultFits model.now mult.now }
{
    if mult.vars.len() != model.vars.len() || mult.rows.len() != model.rows.len() {
        return false;
    }
    if mult.sets.len() != model.sets as usize || mult.paths.len() != model.graphs.len() {
        return false;
    }
    are_mults(mult.vars.as_slice())
        && are_mults(mult.rows.as_slice())
        && are_mults(mult.sets.as_slice())
        && are_mults(mult.paths.as_slice())
}

/// Whether the cuts fit, and have multipliers in range.
pub fn cuts_fit(cuts: &[Cut], mult: &Mult) -> bool
    ensures { IsTrue result → CutsFit cuts.now mult.now }
{
    if cuts.len() > MAX_CUTS || mult.cuts.len() != cuts.len() {
        return false;
    }
    cuts.iter().all(|cut| cut_fits(cut).is_ok()) && are_weights(mult.cuts.as_slice())
}

fn are_weights(weights: &[u64]) -> bool
    ensures { IsTrue result → All (λ y. y ≤ MAX_MULT) weights.now }
{
    weights.iter().all(|weight| *weight <= MAX_MULT)
}

/// Whether there is a least in range, or none, for each graph.
pub fn leasts_fit(spans: &[Span], leasts: &[Option<i128>]) -> bool
    ensures { IsTrue result → LeastsFit spans.now leasts.now }
{
    leasts.len() == spans.len() && leasts.iter().all(|least| is_near(*least))
}

fn is_near(least: Option<i128>) -> bool
    ensures { IsTrue result → IsLeastNear least }
{
    match least {
        Some(least) => -(1 << 112) <= least && least <= 1 << 112,
        None => true,
    }
}

/// Whether a place has one box for each variable and path count, and one mark for each arc.
pub fn spot_fits(model: &Model, spot: &Spot) -> bool
    ensures { IsTrue result → IsSpotOf model.now spot.now }
{
    if spot.boxes.vars.len() != model.vars.len() || spot.boxes.paths.len() != model.graphs.len() {
        return false;
    }
    marks_fit(model.graphs.as_slice(), spot.fixed.as_slice())
}

fn marks_fit(graphs: &[Graph], fixed: &[List<bool>]) -> bool
    ensures { IsTrue result → HaveMarks graphs.now fixed.now }
{
    if fixed.len() != graphs.len() {
        return false;
    }
    for g in 0..graphs.len() {
        if fixed[g].len() != graphs[g].arc_count() as usize {
            return false;
        }
    }
    true
}
