ghost use Rattle.std.specs.Prelude.{◌≡◌, ℕ, ◌<◌, ◌≤◌, ◌^◌, pos, ◌+ℤ◌, ◌*ℤ◌, ◌≤ℤ◌, ◌<ℤ◌, length};
ghost use Rattle.path_graph.specs.Sums.{sum_below};
ghost use Rattle.path_graph.specs.Within.{IsWithin};
ghost use Rattle.route_model.specs.Parts.{var_at};
ghost use Rattle.route_model.specs.Fit.{VarFits, VarsFit, cost_range_of, cost_range};
ghost use Rattle.route_model.specs.declared.plan.Plan.{Plan};
ghost use Rattle.route_model.specs.Quantities.{cost_of};
ghost use Rattle.route_model.specs.Solution.{IsSolution};
ghost use Rattle.route_model.specs.Costs.{least_var_cost, greatest_var_cost, least_box_cost, greatest_box_cost, cost_above_all};

use crate::arithmetic::{product_ends, sum_of};
use crate::parts::{Model, Var};
use path_graph::List;

/// The least cost over the box of the variables, and one more than the greatest, which no solution reaches.
///
/// Both are within 2^40 + 1 of 0. It takes no memory.
pub fn box_costs(model: &Model) -> (i64, i64)
    ensures least { result.0 ≡ least_box_cost model.now }
    ensures above_all { result.1 ≡ cost_above_all model.now }
    ensures solutions { (plan : Plan) → IsSolution model.now plan →
        (result.0 ≤ℤ cost_of model.now plan) × (cost_of model.now plan <ℤ result.1) }
{
    let vars = &model.vars;
    (least_total(vars), sum_of(greatest_total(vars), 1))
}

fn least_total(vars: &List<Var>) -> i64
    requires vars { VarsFit vars.now }
    requires small { cost_range vars.now ≤ 2 ^ 40 }
    ensures { result ≡ sum_below (length vars.now) (λ j. least_var_cost (var_at vars.now j)) }
{
    let mut total = 0;
    for var in 0..vars.len() as u32 {
        total = sum_of(total, least_cost(vars, var));
    }
    total
}

fn greatest_total(vars: &List<Var>) -> i64
    requires vars { VarsFit vars.now }
    requires small { cost_range vars.now ≤ 2 ^ 40 }
    ensures total { result ≡ sum_below (length vars.now) (λ j. greatest_var_cost (var_at vars.now j)) }
    ensures bound { IsWithin (2 ^ 40) result }
{
    let mut total = 0;
    for var in 0..vars.len() as u32 {
        total = sum_of(total, greatest_cost(vars, var));
    }
    total
}

fn least_cost(vars: &List<Var>, var: u32) -> i64
    requires vars { VarsFit vars.now }
    requires within { var < length vars.now }
    ensures cost { result ≡ least_var_cost (var_at vars.now var) }
    ensures small { IsWithin (cost_range_of (var_at vars.now var)) result }
{
    let (least, _greatest) = end_costs(&var_in(vars, var));
    least
}

fn greatest_cost(vars: &List<Var>, var: u32) -> i64
    requires vars { VarsFit vars.now }
    requires within { var < length vars.now }
    ensures cost { result ≡ greatest_var_cost (var_at vars.now var) }
    ensures small { IsWithin (cost_range_of (var_at vars.now var)) result }
{
    let (_least, greatest) = end_costs(&var_in(vars, var));
    greatest
}

fn var_in(vars: &List<Var>, var: u32) -> Var
    requires vars { VarsFit vars.now }
    requires within { var < length vars.now }
    ensures var { result ≡ var_at vars.now var }
    ensures fits { VarFits result }
{
    *vars.at(var as usize)
}

/// The least and the greatest cost of a variable over its box: each lies at an end.
fn end_costs(var: &Var) -> (i64, i64)
    requires { VarFits var.now }
    ensures least { result.0 ≡ least_var_cost var.now }
    ensures greatest { result.1 ≡ greatest_var_cost var.now }
{
    product_ends(var.cost, var.low, var.high)
}
