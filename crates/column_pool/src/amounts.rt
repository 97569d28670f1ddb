//! Sums of numbers times the uses of variables, which fit.

ghost use Rattle.std.specs.Prelude.{◌≡◌, ℕ, ◌<◌, ◌≤◌, ◌^◌, ◌*◌, pos, ◌*ℤ◌, All, length, slice_index};
ghost use Rattle.path_graph.specs.First.{EachBelow};
ghost use Rattle.path_graph.specs.Within.{IsWithin};
ghost use Rattle.route_model.specs.Fit.{TermFits, VarsFit};
ghost use Rattle.column_pool.specs.Amounts.{cost_with, sum_with};
ghost use Rattle.column_pool.specs.declared.limits.TheConstants.{MAX_WALK_ARCS};

use route_model::wide::{plus, product};
use route_model::{RowTerm, Var};

/// The cost of so many uses of each variable.
pub(crate) fn cost_sum(vars: &[Var], uses: &[u32]) -> i64
    requires vars { VarsFit vars.now }
    requires uses { length uses.now ≡ length vars.now }
    requires few { EachBelow (length uses.now) (λ j. slice_index uses.now j ≤ MAX_WALK_ARCS) }
    requires near { IsWithin (2 ^ 62) (cost_with (slice_index uses.now) vars.now) }
    ensures { result ≡ cost_with (slice_index uses.now) vars.now }
{
    let mut total = 0;
    for (j, var) in vars.iter().enumerate() {
        total = plus(total, times_uses(var.cost, uses[j]));
    }
    narrow(total)
}

/// The sum of the terms of a row for so many uses of each variable.
pub(crate) fn term_sum(terms: &[RowTerm], uses: &[u32]) -> i64
    requires terms { All (TermFits (length uses.now)) terms.now }
    requires few_terms { length terms.now ≤ 1000000 }
    requires few { EachBelow (length uses.now) (λ j. slice_index uses.now j ≤ MAX_WALK_ARCS) }
    requires near { IsWithin (2 ^ 62) (sum_with (slice_index uses.now) terms.now) }
    ensures { result ≡ sum_with (slice_index uses.now) terms.now }
{
    let mut total = 0;
    for (k, term) in terms.iter().enumerate() {
        total = plus(total, times_uses(term.coef, uses[term.var as usize]));
    }
    narrow(total)
}

/// A cost or coefficient times the uses of a variable.
fn times_uses(factor: i64, uses: u32) -> i128
    requires factor { IsWithin 1000000000 factor }
    requires few { uses ≤ MAX_WALK_ARCS }
    ensures product { result ≡ factor *ℤ pos uses }
    ensures near { IsWithin (1000000000 * 16777216) result }
{
    product(factor, i64::from(uses))
}

/// A sum at 64 bits, which fits.
fn narrow(total: i128) -> i64
    requires { IsWithin (2 ^ 62) total }
    ensures { result ≡ total }
{
    total as i64
}
