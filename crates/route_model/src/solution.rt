ghost use Rattle.std.specs.Prelude.{◌≡◌, ◌↔◌, IsTrue, ℕ, ◌+◌, ◌*◌, ◌<◌, ◌≤◌, ◌^◌, length, MatchOption, All, List, pos, ◌*ℤ◌, ◌+ℤ◌, ◌≤ℤ◌};
ghost use Rattle.path_graph.specs.Sums.{sum_below};
ghost use Rattle.path_graph.specs.Within.{IsWithin};
ghost use Rattle.path_graph.specs.First.{EachBelow, IsFirstFault};
ghost use Rattle.route_model.specs.Parts.{taken_at, var_at, row_at, term_at};
ghost use Rattle.route_model.specs.Fit.{VarFits, TermFits, RowFits, cost_range_of};
ghost use Rattle.route_model.specs.Quantities.{paths_of, visits_of, value_of, row_sum, cost_of};
ghost use Rattle.route_model.specs.Solution.{IsPath, ArePaths, CountFits, SetFits, InBox, IsBetween, RowHolds};
ghost use Rattle.route_model.specs.Verdicts.{IsCounted, IsVerdict};

use crate::arithmetic::{product, signed_value, sum_of};
use crate::limits::MAX_VALUE;
use crate::parts::{Model, Row, RowTerm, Var};
use crate::plan::{Plan, Taken, Verdict};
use crate::quantities::{path_count, set_visits, value};
use path_graph::{Graph, List, is_walk};

/// Whether a plan is a solution, with its cost, or else its first fault, in this order:
/// a path, by place; a graph's count; a packing set; a variable; a row.
///
/// The time grows as the arcs of the paths times variables and packing sets. It takes no memory.
pub fn judge(model: &Model, plan: &Plan) -> Verdict
    requires { IsCounted plan.now }
    ensures { IsVerdict model.now plan.now result }
{
    if let Some(place) = first_bad_path(model, plan) {
        return Verdict::NotWalk(place);
    }
    if let Some(graph) = first_bad_count(model, plan) {
        return Verdict::Count(graph);
    }
    if let Some(set) = first_bad_set(model, plan) {
        return Verdict::Packing(set);
    }
    if let Some(var) = first_bad_var(model, plan) {
        return Verdict::VarBox(var);
    }
    if let Some(row) = first_bad_row(model, plan) {
        return Verdict::RowBox(row);
    }
    Verdict::Fine {
        cost: plan_cost(model, plan),
    }
}

fn first_bad_path(model: &Model, plan: &Plan) -> Option<u32>
    requires { IsCounted plan.now }
    ensures { MatchOption result (EachBelow (length plan.now.paths) (λ k. IsPath model.now (taken_at plan.now.paths k)))
        (IsFirstFault (length plan.now.paths) (λ k. IsPath model.now (taken_at plan.now.paths k))) }
{
    for (place, taken) in plan.paths.as_slice().iter().enumerate() {
        if !is_path(model, taken) {
            return Some(place as u32);
        }
    }
    None
}

/// Whether a path is a feasible walk of a graph of the model, taken at least once.
fn is_path(model: &Model, taken: &Taken) -> bool
    ensures { IsTrue result ↔ IsPath model.now taken.now }
{
    if taken.graph as usize >= model.graphs.len() {
        return false;
    }
    taken.count >= 1 && is_walk(model.graphs.at(taken.graph as usize), taken.arcs.as_slice())
}

fn first_bad_count(model: &Model, plan: &Plan) -> Option<u32>
    requires { IsCounted plan.now }
    ensures { MatchOption result (EachBelow (length model.now.graphs) (CountFits model.now.graphs plan.now))
        (IsFirstFault (length model.now.graphs) (CountFits model.now.graphs plan.now)) }
{
    for graph in 0..model.graphs.len() as u32 {
        if !count_fits(&model.graphs, plan, graph) {
            return Some(graph);
        }
    }
    None
}

/// Whether a graph has as many paths as it may.
fn count_fits(graphs: &List<Graph>, plan: &Plan, graph: u32) -> bool
    requires counted { IsCounted plan.now }
    requires within { graph < length graphs.now }
    ensures { IsTrue result ↔ CountFits graphs.now plan.now graph }
{
    let ends = graphs.at(graph as usize).ends();
    let count = path_count(plan, graph);
    u128::from(ends.low) <= count && count <= u128::from(ends.high)
}

fn first_bad_set(model: &Model, plan: &Plan) -> Option<u16>
    requires counted { IsCounted plan.now }
    requires paths { ArePaths model.now plan.now }
    ensures { MatchOption result (EachBelow model.now.sets (SetFits model.now plan.now))
        (IsFirstFault model.now.sets (SetFits model.now plan.now)) }
{
    for set in 0..model.sets {
        if !set_fits(model, plan, set) {
            return Some(set);
        }
    }
    None
}

/// Whether a packing set is visited at most once.
fn set_fits(model: &Model, plan: &Plan, set: u16) -> bool
    requires counted { IsCounted plan.now }
    requires paths { ArePaths model.now plan.now }
    ensures { IsTrue result ↔ SetFits model.now plan.now set }
{
    set_visits(model, plan, set) <= 1
}

fn first_bad_var(model: &Model, plan: &Plan) -> Option<u32>
    requires counted { IsCounted plan.now }
    requires paths { ArePaths model.now plan.now }
    ensures { MatchOption result (EachBelow (length model.now.vars) (InBox model.now plan.now))
        (IsFirstFault (length model.now.vars) (InBox model.now plan.now)) }
{
    for var in 0..model.vars.len() as u32 {
        if !is_in_box(model, plan, var) {
            return Some(var);
        }
    }
    None
}

/// Whether a variable lies in its box.
fn is_in_box(model: &Model, plan: &Plan, var: u32) -> bool
    requires counted { IsCounted plan.now }
    requires paths { ArePaths model.now plan.now }
    requires within { var < length model.now.vars }
    ensures { IsTrue result ↔ InBox model.now plan.now var }
{
    has_value(&var_of(model, var), value(model, plan, var))
}

/// Whether the box of a variable has a value.
fn has_value(var: &Var, total: u128) -> bool
    requires { VarFits var.now }
    ensures { IsTrue result ↔ ((var.now.low ≤ℤ pos total) × (pos total ≤ℤ var.now.high)) }
{
    if total > MAX_VALUE as u128 {
        return false;
    }
    let total = signed_value(total);
    var.low <= total && total <= var.high
}

/// A variable.
fn var_of(model: &Model, var: u32) -> Var
    requires { var < length model.now.vars }
    ensures var { result ≡ var_at model.now.vars var }
    ensures fits { VarFits result }
{
    *model.vars.at(var as usize)
}

fn first_bad_row(model: &Model, plan: &Plan) -> Option<u32>
    requires counted { IsCounted plan.now }
    requires paths { ArePaths model.now plan.now }
    requires boxes { EachBelow (length model.now.vars) (InBox model.now plan.now) }
    ensures { MatchOption result (EachBelow (length model.now.rows) (RowHolds model.now plan.now))
        (IsFirstFault (length model.now.rows) (RowHolds model.now plan.now)) }
{
    for row in 0..model.rows.len() as u32 {
        if !row_holds(model, plan, row) {
            return Some(row);
        }
    }
    None
}

/// Whether the sum of a row lies within its sides.
fn row_holds(model: &Model, plan: &Plan, row: u32) -> bool
    requires counted { IsCounted plan.now }
    requires paths { ArePaths model.now plan.now }
    requires boxes { EachBelow (length model.now.vars) (InBox model.now plan.now) }
    requires within { row < length model.now.rows }
    ensures { IsTrue result ↔ RowHolds model.now plan.now row }
{
    let row = row_of(model, row);
    let total = terms_sum(model, plan, row.terms.as_slice());
    is_between(row.low, row.high, total)
}

/// A row.
fn row_of(model: &Model, row: u32) -> &Row
    requires { row < length model.now.rows }
    ensures row { result.now ≡ row_at model.now.rows row }
    ensures fits { RowFits (length model.now.vars) result.now }
    ensures few { length result.now.terms ≤ 1000000 }
{
    model.rows.at(row as usize)
}

/// Whether a number lies within the sides that are not open.
pub fn is_between(low: Option<i64>, high: Option<i64>, total: i64) -> bool
    ensures { IsTrue result ↔ IsBetween low high total }
{
    let above = match low {
        None => true,
        Some(low) => low <= total,
    };
    let below = match high {
        None => true,
        Some(high) => total <= high,
    };
    above && below
}

/// The sum of coefficient × variable over the terms of a row.
fn terms_sum(model: &Model, plan: &Plan, terms: &[RowTerm]) -> i64
    requires counted { IsCounted plan.now }
    requires paths { ArePaths model.now plan.now }
    requires boxes { EachBelow (length model.now.vars) (InBox model.now plan.now) }
    requires few { length terms.now ≤ 1000000 }
    requires each { All (TermFits (length model.now.vars)) terms.now }
    ensures { result ≡ row_sum model.now plan.now terms.now }
{
    let mut total = 0;
    for term in terms {
        total = sum_of(total, term_value(model, plan, term));
    }
    total
}

/// What a term adds to its row.
fn term_value(model: &Model, plan: &Plan, term: &RowTerm) -> i64
    requires counted { IsCounted plan.now }
    requires paths { ArePaths model.now plan.now }
    requires boxes { EachBelow (length model.now.vars) (InBox model.now plan.now) }
    requires fits { TermFits (length model.now.vars) term.now }
    ensures value { result ≡ term.now.coef *ℤ pos (value_of model.now plan.now term.now.var) }
    ensures small { IsWithin 1000000000000 result }
{
    product(term.coef, boxed_value(model, plan, term.var))
}

/// The value of a variable that lies in its box.
fn boxed_value(model: &Model, plan: &Plan, var: u32) -> i64
    requires counted { IsCounted plan.now }
    requires paths { ArePaths model.now plan.now }
    requires in_box { InBox model.now plan.now var }
    requires within { var < length model.now.vars }
    ensures value { result ≡ pos (value_of model.now plan.now var) }
    ensures small { IsWithin 1000000 result }
{
    let _fits = var_of(model, var);
    signed_value(value(model, plan, var))
}

/// What a plan within the box of the variables costs.
fn plan_cost(model: &Model, plan: &Plan) -> i64
    requires counted { IsCounted plan.now }
    requires paths { ArePaths model.now plan.now }
    requires boxes { EachBelow (length model.now.vars) (InBox model.now plan.now) }
    ensures { result ≡ cost_of model.now plan.now }
{
    let mut total = 0;
    for var in 0..model.vars.len() as u32 {
        total = sum_of(total, var_cost(model, plan, var));
    }
    total
}

/// What a variable costs.
fn var_cost(model: &Model, plan: &Plan, var: u32) -> i64
    requires counted { IsCounted plan.now }
    requires paths { ArePaths model.now plan.now }
    requires boxes { EachBelow (length model.now.vars) (InBox model.now plan.now) }
    requires within { var < length model.now.vars }
    ensures value { result ≡ (var_at model.now.vars var).cost *ℤ pos (value_of model.now plan.now var) }
    ensures small { IsWithin (cost_range_of (var_at model.now.vars var)) result }
{
    product(var_of(model, var).cost, boxed_value(model, plan, var))
}
