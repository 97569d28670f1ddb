ghost use Rattle.std.specs.Prelude.{◌≡◌, ◌↔◌, ℕ, ◌+◌, ◌*◌, ◌<◌, ◌≤◌, ◌^◌, pos, ◌+ℤ◌, ◌*ℤ◌, length, sum_by, IfOk, IsErrOf, unsigned_abs};
ghost use Rattle.std.specs.Int.{int_min, int_max};
ghost use Rattle.path_graph.specs.Within.{IsWithin};
ghost use Rattle.route_model.specs.Parts.{var_at};
ghost use Rattle.route_model.specs.Fit.{VarFits, VarsFit, ModelFits, cost_range_of, cost_range};
ghost use Rattle.route_model.specs.Costs.{least_var_cost, greatest_var_cost, least_box_cost, greatest_box_cost, cost_above_all};

use crate::limits::MAX_COST_RANGE;
use crate::parts::{BuildFault, Model, Row, Var};
use path_graph::{Graph, List};
use std::alloc::Global;

impl Model {
    /// The model of parts that fit, as `model_fits` tells.
    ///
    /// `CostRange` comes where the sum of absolute cost × high over the variables is above `MAX_COST_RANGE`, and then the parts
    /// are dropped.
    pub fn build(
        _alloc: Global,
        vars: List<Var>,
        rows: List<Row>,
        sets: u16,
        graphs: List<Graph>,
        maps: List<List<List<u32>>>,
    ) -> Result<Model, BuildFault>
        requires { ModelFits (record { vars = vars; rows = rows; sets = sets; graphs = graphs; maps = maps }) }
        ensures ok { IfOk result (λ m. m ≡ record { vars = vars; rows = rows; sets = sets; graphs = graphs; maps = maps }) }
        ensures cost_range { IsErrOf result BuildFault.CostRange ↔ (MAX_COST_RANGE < cost_range vars) }
    {
        if cost_total(vars.as_slice()) > MAX_COST_RANGE {
            return Err(BuildFault::CostRange);
        }
        Ok(Model {
            vars,
            rows,
            sets,
            graphs,
            maps,
        })
    }
}

/// The sum of absolute cost × high over the variables.
fn cost_total(vars: &[Var]) -> u128
    requires { VarsFit vars.now }
    ensures { result ≡ cost_range vars.now }
{
    let mut total: u128 = 0;
    for var in vars {
        total += var_range(var);
    }
    total
}

/// The absolute cost × high of a variable.
fn var_range(var: &Var) -> u128
    requires { VarFits var.now }
    ensures range { result ≡ cost_range_of var.now }
    ensures small { result ≤ 1000000000000000 }
{
    u128::from(var.cost.unsigned_abs()) * u128::from(var.high.unsigned_abs())
}
