ghost use Rattle.std.specs.Prelude.{◌≡◌, ◌≢◌, ℕ, ◌+◌, ◌<◌, ◌≤◌, ◌-◌, ◌++◌, ◌∷◌, [], map, IfOk, OnOk, pos};
ghost use Rattle.std.specs.List.{range_with_len};
ghost use Rattle.route_tasks.specs.Fit.{TaskFits};
ghost use Rattle.route_tasks.specs.Places.{customers, other, over_pairs, variable, distance_at};
ghost use Rattle.route_tasks.specs.ModelOf.{term_of, terms_of, row_of, rows_of, var_of, vars_from, vars_of};

use crate::distances::distance;
use crate::limits::MAX_CUSTOMERS;
use crate::places::{customer_count, place, variable_at};
use crate::task::RouteTask;
use path_graph::{List, NoMemory};
use route_model::{Row, RowTerm, Var};
use std::alloc::Global;

/// The variable of a pair.
fn var(task: &RouteTask, low: u32, high: u32) -> Var
    requires { TaskFits task.now }
    ensures { result ≡ var_of task.now low high }
{
    Var {
        low: 0,
        high: if low == 0 { 2 } else { 1 },
        cost: distance(task, &place(task, low), &place(task, high)),
    }
}

/// Appends the variables of the pairs with this lower place.
fn push_vars(
    alloc: Global,
    vars: &mut List<Var>,
    task: &RouteTask,
    low: u32,
) -> Result<(), NoMemory>
    requires fits { TaskFits task.now }
    requires place { low < customers task.now }
    ensures { OnOk result (vars.new ≡ vars.old ++ vars_from task.now low) }
{
    for high in low + 1..customer_count(task) + 1 {
        vars.push(var(task, low, high))?;
    }
    Ok(())
}

/// The variables, by lower, then by higher place.
pub(crate) fn vars(alloc: Global, task: &RouteTask) -> Result<List<Var>, NoMemory>
    requires { TaskFits task.now }
    ensures { IfOk result (λ vars. vars ≡ vars_of task.now) }
{
    let mut vars = List::new(alloc);
    for low in 0..customer_count(task) {
        push_vars(alloc, &mut vars, task, low)?;
    }
    Ok(vars)
}

/// The term of the pair of a customer with the `k`-th other place.
fn term(n: u32, i: u32, k: u32) -> RowTerm
    requires few { n ≤ MAX_CUSTOMERS }
    requires customer { i ≤ n }
    requires place { k < n }
    ensures { result ≡ term_of n i (other i k) }
{
    let other = if k < i { k } else { k + 1 };
    RowTerm {
        var: variable_at(n, i, other),
        coef: 1,
    }
}

/// The variables of the pairs with a customer, each once.
fn terms(alloc: Global, n: u32, i: u32) -> Result<List<RowTerm>, NoMemory>
    requires few { n ≤ MAX_CUSTOMERS }
    requires place { i ≤ n }
    ensures { IfOk result (λ terms. terms ≡ terms_of n i) }
{
    let mut terms = List::new(alloc);
    for k in 0..n {
        terms.push(term(n, i, k))?;
    }
    Ok(terms)
}

/// The row of a customer: the pairs with it are used twice.
fn row(alloc: Global, n: u32, i: u32) -> Result<Row, NoMemory>
    requires few { n ≤ MAX_CUSTOMERS }
    requires place { i ≤ n }
    ensures { IfOk result (λ row. row ≡ row_of n i) }
{
    Ok(Row {
        low: Some(2),
        high: Some(2),
        terms: terms(alloc, n, i)?,
    })
}

/// The rows of the customers.
pub(crate) fn rows(alloc: Global, n: u32) -> Result<List<Row>, NoMemory>
    requires { n ≤ MAX_CUSTOMERS }
    ensures { IfOk result (λ rows. rows ≡ rows_of n) }
{
    let mut rows = List::new(alloc);
    for i in 1..n + 1 {
        rows.push(row(alloc, n, i)?)?;
    }
    Ok(rows)
}
