ghost use Rattle.std.specs.Prelude.{◌≡◌, ◌^◌, ◌+ℤ◌, neg_ℤ, IfOk, IfErr, map};
ghost use Rattle.path_graph.specs.Sums.{sum_over};
ghost use Rattle.path_graph.specs.Within.{IsWithin};
ghost use Rattle.route_model.specs.Fit.{ModelFits};
ghost use Rattle.route_model.specs.Places.{BoxesFit};
ghost use Rattle.multipliers.specs.Priced.{IsMultFault, IsOpenRow, IsPriced, reduced_unit};
ghost use Rattle.multipliers.specs.Promise.{ArcsAddLittle, BoundsCosts, PartialWalksStayNear, PricesArcs, SolutionsKeepCutsLaw};
ghost use Rattle.multipliers.specs.Quantities.{AreDefined, base};
ghost use Rattle.multipliers.specs.Ranges.{AreInRange, CutsFit, MultFits};

use crate::arcs::{arc_costs, turned};
use crate::base::{cut_terms, row_terms, set_terms, span_terms};
use crate::units::unit_costs;
use path_graph::{List, NoMemory};
use rank1_cuts::Cut;
use route_model::{Boxes, Model, Mult, MultFault, Priced, Quantity};
use std::alloc::Global;

/// What multipliers make of boxes: the sum of the terms, and the reduced costs of each arc of each graph, of a visit to
/// each packing set, and of a path of each graph before its first arc, cuts aside.
///
/// `OpenSide` comes exactly where some multiplier needs an open side, with the first such quantity; only a row can be.
/// Costs are multiplied by 65,536, and multipliers have that scale. With any multipliers, the base and the reduced costs
/// of the walks of a solution within the boxes are at most its scaled cost: weak duality, as of a linear program with
/// bounded variables (Dantzig 1955). The time is linear in the terms of the rows, the arcs with the variables that they
/// map, and the quantities.
pub fn priced(
    alloc: Global,
    model: &Model,
    boxes: &Boxes,
    cuts: &[Cut],
    mult: &Mult,
) -> Result<Priced, MultFault>
    requires boxes { BoxesFit model.now boxes.now }
    requires cuts { CutsFit cuts.now mult.now }
    requires mult { MultFits model.now mult.now }
    ensures priced { IfOk result (IsPriced model.now cuts.now boxes.now mult.now) }
    ensures fault { IfErr result (IsMultFault model.now cuts.now boxes.now mult.now) }
    ensures duality { IfOk result (BoundsCosts model.now cuts.now boxes.now mult.now) }
    ensures along { IfOk result (PricesArcs model.now cuts.now mult.now) }
    ensures range { IfOk result (AreInRange boxes.now) }
    ensures arc { IfOk result (λ p. ArcsAddLittle model.now cuts.now mult.now) }
    ensures walk { IfOk result (λ p. PartialWalksStayNear model.now cuts.now mult.now) }
{
    match base_of(model, boxes, cuts, mult) {
        Err(row) => Err(MultFault::OpenSide(Quantity::Row(row))),
        Ok(base) => match costs_of(alloc, model, mult, base) {
            Ok(costs) => Ok(costs),
            Err(_) => Err(MultFault::Memory),
        },
    }
}

/// Every solution keeps every cut that fits, whatever its memory.
pub fn solutions_keep_cuts()
    ensures { SolutionsKeepCutsLaw }
{}

/// What each arc, each visit and each start costs, beside the base.
fn costs_of(alloc: Global, model: &Model, mult: &Mult, base: i128) -> Result<Priced, NoMemory>
    requires { MultFits model.now mult.now }
    ensures base { IfOk result (λ p. p.base ≡ base) }
    ensures arcs { IfOk result (λ p. p.arcs ≡ map (map (sum_over (reduced_unit model.now mult.now))) model.now.maps) }
    ensures visits { IfOk result (λ p. p.visits ≡ map neg_ℤ mult.now.sets) }
    ensures starts { IfOk result (λ p. p.starts ≡ map neg_ℤ mult.now.paths) }
{
    let units = unit_costs(alloc, model, mult)?;
    let arcs = arc_costs(alloc, units.as_slice(), model.maps.as_slice())?;
    let visits = turned(alloc, mult.sets.as_slice())?;
    let starts = turned(alloc, mult.paths.as_slice())?;
    Ok(Priced {
        base,
        arcs,
        visits: List::from_vec(visits),
        starts: List::from_vec(starts),
    })
}

/// The sum of the terms, or the first row whose multiplier needs an open side.
fn base_of(model: &Model, boxes: &Boxes, cuts: &[Cut], mult: &Mult) -> Result<i128, u32>
    requires boxes { BoxesFit model.now boxes.now }
    requires cuts { CutsFit cuts.now mult.now }
    requires mult { MultFits model.now mult.now }
    ensures base { IfOk result (λ total. total ≡ base model.now cuts.now boxes.now mult.now) }
    ensures small { IfOk result (IsWithin (2 ^ 107)) }
    ensures defined { IfOk result (λ total. AreDefined model.now cuts.now boxes.now mult.now) }
    ensures open { IfErr result (IsOpenRow model.now cuts.now boxes.now mult.now) }
    ensures fits { ModelFits model.now }
{
    let rows = row_terms(mult.rows.as_slice(), model.rows.as_slice())?;
    let vars = span_terms(mult.vars.as_slice(), boxes.vars.as_slice());
    let sets = set_terms(mult.sets.as_slice());
    let cuts = cut_terms(mult.cuts.as_slice(), cuts);
    let paths = span_terms(mult.paths.as_slice(), boxes.paths.as_slice());
    Ok(total_of(vars, rows, sets, cuts, paths))
}

/// Five numbers together, which fit.
fn total_of(vars: i128, rows: i128, sets: i128, cuts: i128, paths: i128) -> i128
    requires vars { IsWithin (2 ^ 104) vars }
    requires rows { IsWithin (2 ^ 104) rows }
    requires sets { IsWithin (2 ^ 104) sets }
    requires cuts { IsWithin (2 ^ 104) cuts }
    requires paths { IsWithin (2 ^ 104) paths }
    ensures total { result ≡ vars +ℤ (rows +ℤ (sets +ℤ (cuts +ℤ paths))) }
    ensures small { IsWithin (2 ^ 107) result }
{
    vars + (rows + (sets + (cuts + paths)))
}
