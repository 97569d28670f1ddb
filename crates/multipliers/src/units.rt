ghost use Rattle.std.specs.Prelude.{◌≡◌, ℕ, ◌<◌, ◌≤◌, ◌^◌, ◌-ℤ◌, ◌*ℤ◌, All, IfOk, length, map, slice_set};
ghost use Rattle.std.specs.List.{range_with_len};
ghost use Rattle.path_graph.specs.Fit.{int_at};
ghost use Rattle.path_graph.specs.Sums.{sum_below};
ghost use Rattle.path_graph.specs.Within.{IsWithin};
ghost use Rattle.path_graph.specs.First.{EachBelow};
ghost use Rattle.route_model.specs.Fit.{RowsFit, TermFits, VarFits, VarsFit};
ghost use Rattle.route_model.specs.Parts.{row_at, var_at};
ghost use Rattle.multipliers.specs.Priced.{coef_in};
ghost use Rattle.multipliers.specs.Quantities.{scaled};
ghost use Rattle.multipliers.specs.Ranges.{AreUnits, MultFits};

use path_graph::{List, NoMemory};
use route_model::wide::{minus, product};
use route_model::{Model, Mult, Row, RowTerm, Var};
use std::alloc::Global;

/// The reduced cost of a unit of each variable, in one pass over the terms of all rows.
pub(crate) fn unit_costs(alloc: Global, model: &Model, mult: &Mult) -> Result<Vec<i128>, NoMemory>
    requires { MultFits model.now mult.now }
    ensures { IfOk result (λ units. AreUnits model.now mult.now units.items) }
{
    let mut units = own_costs(alloc, model.vars.as_slice(), mult.vars.as_slice())?;
    take_rows(
        units.as_mut_slice(),
        mult.rows.as_slice(),
        model.rows.as_slice(),
    );
    Ok(units)
}

/// The scaled cost of each variable less its multiplier.
fn own_costs(alloc: Global, vars: &[Var], mults: &[i64]) -> Result<Vec<i128>, NoMemory>
    requires fits { VarsFit vars.now }
    requires mults { length mults.now ≡ length vars.now }
    requires small { All (IsWithin (2 ^ 48)) mults.now }
    ensures { IfOk result (λ costs. costs.items ≡ map (λ j. scaled (var_at vars.now j).cost -ℤ int_at mults.now j) (range_with_len 0 (length vars.now))) }
{
    let mut costs = Vec::new(alloc);
    for (j, var) in vars.iter().enumerate() {
        costs.push(own_cost(var, mults[j]))?;
    }
    Ok(costs)
}

fn own_cost(var: &Var, mult: i64) -> i128
    requires fits { VarFits var.now }
    requires mult { IsWithin (2 ^ 48) mult }
    ensures { result ≡ scaled var.now.cost -ℤ mult }
{
    minus(product(65_536, var.cost), i128::from(mult))
}

/// Takes from the units of each variable what the multipliers of the rows are worth on them.
fn take_rows(units: &mut [i128], mults: &[i64], rows: &[Row])
    requires fits { RowsFit (length units.old) rows.now }
    requires mults { length mults.now ≡ length rows.now }
    requires range { All (IsWithin (2 ^ 48)) mults.now }
    requires small { EachBelow (length units.old) (λ j. IsWithin (2 ^ 64) (int_at units.old j)) }
    ensures each { EachBelow (length units.old) (λ j. int_at units.new j
        ≡ int_at units.old j -ℤ sum_below (length rows.now) (λ i. int_at mults.now i *ℤ coef_in (row_at rows.now i).terms j)) }
    ensures small { EachBelow (length units.old) (λ j. IsWithin (2 ^ 102) (int_at units.new j)) }
{
    for (i, row) in rows.iter().enumerate() {
        take_row(units, mults[i], row.terms.as_slice());
    }
}

/// Takes from the units of each variable of a row what the multiplier of the row is worth on them.
fn take_row(units: &mut [i128], mult: i64, terms: &[RowTerm])
    requires mult { IsWithin (2 ^ 48) mult }
    requires few { length terms.now ≤ 1000000 }
    requires terms { All (TermFits (length units.old)) terms.now }
    requires small { EachBelow (length units.old) (λ j. IsWithin (2 ^ 120) (int_at units.old j)) }
    ensures { EachBelow (length units.old) (λ j. int_at units.new j ≡ int_at units.old j -ℤ mult *ℤ coef_in terms.now j) }
{
    for term in terms {
        take_term(units, mult, term);
    }
}

/// The same of one term.
fn take_term(units: &mut [i128], mult: i64, term: &RowTerm)
    requires mult { IsWithin (2 ^ 48) mult }
    requires fits { TermFits (length units.old) term.now }
    requires small { EachBelow (length units.old) (λ j. IsWithin (2 ^ 121) (int_at units.old j)) }
    ensures { units.new ≡ slice_set units.old term.now.var (int_at units.old term.now.var -ℤ mult *ℤ term.now.coef) }
{
    let var = term.var as usize;
    units[var] = minus(units[var], product(mult, term.coef));
}
